// The tick bytes of a job text, handed out piece by piece into a lent buffer. How far it has come goes in by value and comes back by value.
#![tactic(auto)]

ghost use Rattle.std.specs.Prelude.{◌≡◌, false};
ghost use Rattle.stream.specs.computed.Stream.{NextLine, Fills, is_refused, stream_from, ended_of, at_machine};

use bench::Bench;
use reader::text_line::{Read, read_first};
use reader::{LONGEST_TEXT, Reader};
use tally::MOST_BLOCK_TICKS;

#[derive(Drop)]
pub struct Stream {
    // All is handed out. No `Option` of what is left: `ended_of` says that place, reader and bench stay as they were.
    pub over: bool,
    // Where the next line begins in the text.
    pub at: usize,
    pub reader: Reader,
    // The block in work, if there is one, has bytes to come before the next line is read.
    pub bench: Bench,
}

// What a buffer got: its first `len` bytes, and how far the stream has come with them.
#[derive(Drop)]
pub struct Filled {
    pub len: usize,
    pub stream: Stream,
}

fn is_refused(answer: Read) -> bool
    ensures { result ≡ is_refused answer }
{
    matches!(answer, Read::Refused(_))
}

impl Stream {
    // The tick bytes of a job that begins at this bench.
    #[tactic(auto, unfolding(crate::specs::computed::Stream::stream_from))]
    pub fn start(bench: Bench) -> Stream
        ensures { result ≡ stream_from bench }
    {
        Stream {
            over: false,
            at: 0,
            reader: Reader::start(),
            bench,
        }
    }

    fn ended(self) -> Stream
        ensures { result ≡ ended_of self }
    {
        Stream { over: true, ..self }
    }

    fn at_machine(self, bench: Bench) -> Stream
        ensures { result ≡ at_machine self bench }
    {
        Stream { bench, ..self }
    }

    // Reads the next line, where nothing is left in work.
    fn next_line(self, text: &[u8]) -> Stream
        requires { self.over ≡ false }
        ensures { NextLine self text.now result }
    {
        if LONGEST_TEXT < text.len() {
            return self.ended();
        }
        if text.len() <= self.at {
            return self.ended();
        }
        let first = read_first(self.reader, self.bench, &text[self.at..]);
        let read = first.read;
        if is_refused(read.answer) {
            return self.ended();
        }
        Stream {
            over: false,
            at: self.at + first.bytes + 1,
            reader: read.reader,
            bench: read.bench,
        }
    }

    // Writes the next tick bytes to the front of the buffer: of one block, as many as it has or as the buffer holds.
    pub fn fill(self, text: &[u8], out: &mut [u8]) -> Filled
        ensures { Fills self text.now out.old result out.new }
    {
        if out.len() == 0 {
            return Filled {
                len: 0,
                stream: self,
            };
        }
        let mut stream = self;
        while !stream.over {
            // No block exceeds this budget: the run goes to the block's end or fills its buffer.
            let ran = stream.bench.run(MOST_BLOCK_TICKS, out);
            if 0 < ran.ticks {
                return Filled {
                    len: ran.ticks as usize,
                    stream: stream.at_machine(ran.bench),
                };
            }
            stream = stream.next_line(text);
        }
        Filled { len: 0, stream }
    }
}
