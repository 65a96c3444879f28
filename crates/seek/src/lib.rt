// Where a whole job stands after so many ticks: the block in work then, its line and cycles left, and the record. No tick is done: the
// blocks before it are finished, and the record after some of its own ticks is found, by closed forms. The cost grows with the text alone.
#![tactic(auto)]

ghost use Rattle.std.specs.Prelude.{◌≡◌, true};
ghost use Rattle.seek.specs.computed.Seek.{seek_of};
ghost use Rattle.seek.specs.computed.Search.{Counted, Tested, search_from, passed_of, block_of, refused_of, search_after};

use ahead::after_ticks;
use bench::Bench;
use bench::tested::SoundBench;
use finish::finish;
use reader::text_line::{Read, ReadLine, read_first};
use reader::{LONGEST_TEXT, Reader};
use settings::Settings;
use work::rest::work_left;

// What the ticks come to: a block is in work, or all blocks have ended, or a line before that is refused, with the number of the question.
#[derive(Clone, Copy)]
pub enum Found {
    InWork,
    Over,
    Refused(u64),
}

#[derive(Clone, Copy)]
pub struct Sought {
    pub found: Found,
    // The block in work, counted from 1; else how many blocks have ended.
    pub block: u64,
    // The text line of the block in work, or the refused one, counted from 1; else how many lines there are.
    pub line: u64,
    // Those done of the block in work; else those that are left over.
    pub ticks: u64,
    // The cycles that the block in work has left to its end; else 0.
    pub left: u64,
    pub bench: Bench,
}

// A search between two lines. `sought` is the answer where the text ends there, or whatever follows once it is decided.
#[derive(Drop)]
struct Search {
    decided: bool,
    reader: Reader,
    sought: Sought,
}

impl Search {
    fn start(settings: Settings, ticks: u64) -> Search
        ensures { result ≡ search_from settings ticks }
    {
        let made = Bench::make(settings);
        let bench = made.bench;
        let reader = Reader::start();
        let sought = Sought {
            found: Found::Over,
            block: 0,
            line: 0,
            ticks: ticks,
            left: 0,
            bench: bench,
        };
        Search {
            decided: false,
            reader: reader,
            sought: sought,
        }
    }

    // The next line makes no block.
    fn passed(self, reader: Reader, bench: Bench) -> Search
        requires { Counted self }
        ensures { result ≡ passed_of self reader bench }
    {
        let s = self.sought;
        let next = Sought {
            found: Found::Over,
            block: s.block,
            line: s.line + 1,
            ticks: s.ticks,
            left: 0,
            bench: bench,
        };
        Search {
            decided: false,
            reader: reader,
            sought: next,
        }
    }

    // The next line brought a block into work: the one sought, or it ends with ticks left over.
    fn block(self, reader: Reader, loaded: SoundBench) -> Search
        requires { Counted self }
        ensures { result ≡ block_of self reader loaded.bench }
    {
        let s = self.sought;
        let done = finish(loaded);
        let decided = s.ticks < done.ticks;
        let next = if decided {
            let then = after_ticks(loaded, s.ticks);
            let at = then.at;
            let work = then.work;
            let left = work_left(at, work);
            Sought {
                found: Found::InWork,
                block: s.block + 1,
                line: s.line + 1,
                ticks: s.ticks,
                left: left.cycles,
                bench: then,
            }
        } else {
            let ended = done.bench;
            Sought {
                found: Found::Over,
                block: s.block + 1,
                line: s.line + 1,
                ticks: s.ticks - done.ticks,
                left: 0,
                bench: ended,
            }
        };
        Search {
            decided: decided,
            reader: reader,
            sought: next,
        }
    }

    fn refused(self, bench: Bench, number: u64) -> Search
        requires { Counted self }
        ensures { result ≡ refused_of self bench number }
    {
        let reader = self.reader;
        let s = self.sought;
        let next = Sought {
            found: Found::Refused(number),
            block: s.block,
            line: s.line + 1,
            ticks: s.ticks,
            left: 0,
            bench: bench,
        };
        Search {
            decided: true,
            reader: reader,
            sought: next,
        }
    }

    fn line(self, read: ReadLine) -> Search
        requires { Counted self × Tested read }
        ensures { result ≡ search_after self read }
    {
        let reader = read.reader;
        let bench = read.bench;
        let answer = read.answer;
        match answer {
            Read::Nothing => self.passed(reader, bench),
            Read::Loaded(_) => self.block(reader, SoundBench { bench }),
            Read::Refused(number) => self.refused(bench, number),
        }
    }
}

// After so many ticks of a job that begins at the machine that a make with these settings answers.
pub fn seek(settings: Settings, text: &[u8], ticks: u64) -> Sought
    ensures { result ≡ seek_of settings text.now ticks }
{
    let mut search = Search::start(settings, ticks);
    if LONGEST_TEXT < text.len() {
        let begun = search.sought;
        let bench = begun.bench;
        let long = search.refused(bench, 30);
        return long.sought;
    }
    let mut at = 0;
    while at < text.len() {
        let known = search.reader;
        let stood = search.sought;
        let before = stood.bench;
        let first = read_first(known, before, &text[at..]);
        let read = first.read;
        search = search.line(read);
        if search.decided {
            return search.sought;
        }
        at = at + first.bytes + 1;
    }
    search.sought
}
