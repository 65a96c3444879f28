// The listing of a job, line by line: document 01, "The check program". What has been read so far is a tally, which goes in by value and
// comes back by value beside the row, as the machine does. Blocks are not walked: each is finished by the closed forms.
#![tactic(auto)]

ghost use Rattle.std.specs.Prelude.{◌≡◌, true, ◌≤◌, length};
ghost use Rattle.words.specs.computed.Scan.{first_line};
ghost use Rattle.row.specs.computed.Buffer.{line_room, has_room, buffer_after, place_after};
ghost use Rattle.tally.specs.computed.Tally.{Gives, counts_right, kind_of, tally_from, block_listed, total_of};
ghost use Rattle.tally.specs.computed.Tally.{Reads, bytes_read, unread_of, passed_of};

use bench::Bench;
use bench::tested::SoundBench;
use finish::finish;
use reader::text_line::{Read, read_first};
use reader::{LONGEST_TEXT, Reader};
use row::lines::{BlockRow, Kind, has_room};
use row::long::{LOW_LIMIT, LongCount};
use work::Work;

// A text has no more lines than bytes.
const MOST_LINES: u64 = LONGEST_TEXT as u64;

// No block has more cycles,
const MOST_BLOCK_CYCLES: u64 = 8_000_000;

// nor more ticks.
pub const MOST_BLOCK_TICKS: u64 = 11_280_000_000_000_000;

#[derive(Clone, Copy)]
pub struct Tally {
    pub reader: Reader,
    // Idle between lines: each block has ended before the next line is read.
    pub bench: Bench,
    // Text lines read.
    pub lines: u64,
    // Totals of the blocks so far.
    pub blocks: u64,
    pub cycles: u64,
    pub ticks: LongCount,
}

// What a text line gives: the place after its row in the buffer, the same where it makes no block, and whether the listing is over with it.
#[derive(Drop)]
pub struct Listed {
    pub next: usize,
    pub over: bool,
    // Bytes of the line, without its LF; 0 where the listing is over or there was no room. No Option beside `over`: without room nothing is
    // read and nothing is over, which `bytes_value` of `read` tells apart.
    pub bytes: usize,
    pub tally: Tally,
}

fn kind_of(work: Work) -> Kind
    ensures { result ≡ kind_of work }
{
    match work {
        Work::Nothing | Work::Line(_) => Kind::Line,
        Work::Arc(_) => Kind::Arc,
    }
}

impl Tally {
    // Before the first line of a job at this bench.
    #[tactic(auto, unfolding(crate::specs::computed::Tally::tally_from))]
    pub fn start(bench: Bench) -> Tally
        ensures { result ≡ tally_from bench }
    {
        Tally {
            reader: Reader::start(),
            bench,
            lines: 0,
            blocks: 0,
            cycles: 0,
            ticks: LongCount::zero(),
        }
    }

    // Whether the counts are some that a text can reach: then those after the next line fit too.
    #[tactic(auto, unfolding(crate::specs::computed::Tally::counts_right))]
    fn counts_right(self) -> bool
        ensures { result ≡ counts_right self }
    {
        self.lines <= MOST_LINES
            && self.blocks <= self.lines
            && self.cycles <= MOST_BLOCK_CYCLES * self.lines
            && self.ticks.high as u64 <= self.lines
            && self.ticks.low < LOW_LIMIT
    }

    // Nothing read, and nothing written.
    fn unread(self, at: usize, over: bool) -> Listed
        ensures { result ≡ unread_of self at over }
    {
        Listed {
            next: at,
            over,
            bytes: 0,
            tally: self,
        }
    }

    // A line of so many bytes that makes no block: nothing is written.
    fn passed(self, reader: Reader, bench: Bench, bytes: usize, at: usize) -> Listed
        requires { counts_right self ≡ true }
        ensures { result ≡ passed_of self reader bench bytes at }
    {
        Listed {
            next: at,
            over: false,
            bytes,
            tally: Tally {
                reader,
                bench,
                lines: self.lines + 1,
                ..self
            },
        }
    }

    // A block that a line of so many bytes brought into work, run to its end.
    fn block(
        self,
        reader: Reader,
        loaded: SoundBench,
        bits: u64,
        bytes: usize,
        out: &mut [u8],
        at: usize,
    ) -> Listed
        requires { (counts_right self ≡ true) × (has_room out.old at ≡ true) }
        ensures gives { Gives (block_listed self reader loaded.bench bits) out.old at result out.new }
        ensures bytes_value { result.bytes ≡ bytes }
    {
        let done = finish(loaded);
        let bench = done.bench;
        let row = BlockRow {
            block: self.blocks + 1,
            line: self.lines + 1,
            kind: kind_of(loaded.bench.work),
            cycles: done.cycles,
            x: bench.at.x,
            y: bench.at.y,
            bits,
        };
        let place = row::lines::block(out, at, row);
        Listed {
            next: place.unwrap_or(at),
            over: false,
            bytes,
            tally: Tally {
                reader,
                bench,
                lines: self.lines + 1,
                blocks: self.blocks + 1,
                cycles: self.cycles + done.cycles,
                ticks: self.ticks.plus(done.ticks),
            },
        }
    }

    // The first line of what is left of the text; its row goes into the buffer from `at` on. Without room for a row nothing is read.
    pub fn read(self, text: &[u8], out: &mut [u8], at: usize) -> Listed
        ensures reads { Reads self (first_line text.now) out.old at result out.new }
        ensures bytes_value { result.bytes ≡ bytes_read self (first_line text.now) out.old at }
    {
        if !has_room(out.len(), at) {
            return self.unread(at, false);
        }
        if !self.counts_right() {
            return self.unread(at, true);
        }
        let first = read_first(self.reader, self.bench, text);
        let read = first.read;
        match read.answer {
            Read::Nothing => self.passed(read.reader, read.bench, first.bytes, at),
            Read::Loaded(bits) => self.block(
                read.reader,
                SoundBench { bench: read.bench },
                bits,
                first.bytes,
                out,
                at,
            ),
            Read::Refused(number) => {
                let place = row::lines::refused(out, at, self.lines + 1, number);
                Listed {
                    next: place.unwrap_or(at),
                    over: true,
                    bytes: 0,
                    tally: self,
                }
            }
        }
    }

    // The same tally. Between lines nothing is in work: where that is so it is written anew, so that the compiler sees it and carries no
    // work from line to line, nor copies a record with room for one.
    pub fn settled(self) -> Tally
        ensures { result ≡ self }
    {
        let bench = self.bench;
        match bench.work {
            Work::Nothing => Tally {
                bench: bench.moved(bench.at, bench.remainder, Work::Nothing),
                ..self
            },
            Work::Line(_) | Work::Arc(_) => self,
        }
    }

    // The last row of a job that was read to its end.
    pub fn total(self, out: &mut [u8], at: usize) -> Option<usize>
        ensures buffer { out.new ≡ buffer_after (total_of self) out.old at }
        ensures place { result ≡ place_after (total_of self) out.old at }
        ensures short { length (total_of self) ≤ line_room }
    {
        row::lines::total(out, at, self.blocks, self.cycles, self.ticks)
    }
}
