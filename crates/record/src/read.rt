// What the words tell, whatever they are: each is read where it stands, and the words are not copied as a whole.
ghost use Rattle.std.specs.Prelude.{◌≡◌, ◌≤◌, ◌<◌};
ghost use Rattle.encoding.specs.Words.{count_of, at};
ghost use Rattle.encoding.specs.computed.Words.{head_in, work_words_in};
ghost use Rattle.machine.specs.Machine.{start_of};
ghost use Rattle.record.specs.computed.Words.{block_words_in, path_read, waiting_of, waiting_in, queue_in, figures_in, len_in, bench_in};

use bench::Bench;
use block::{Block, Path};
use circle::plane::{Offset, Turn};
use encoding::decode;
use encoding::encode::{Head, WorkWords};
use encoding::number::count;
use plane::point::Point;
use queue::Waiting;
use work::rest::end_of;

// Words 19 to 21: the root of the block in work, the cycles still to do, and how many blocks wait.
#[derive(Drop)]
pub struct Figures {
    pub root: i64,
    pub left: i64,
    pub len: i64,
}

// The seven words of a block that waits: its kind, its end, its feed number, its centre seen from its start, its root. The kind stays a
// number: these are the words of the C interface, which may hold any.
#[derive(Clone, Copy)]
pub struct BlockWords {
    pub kind: i64,
    pub x: i64,
    pub y: i64,
    pub feed: i64,
    pub i: i64,
    pub j: i64,
    pub root: i64,
}

#[inline(always)]
pub fn head_in(words: &[i64; 134]) -> Head
    ensures { result ≡ head_in words.now }
{
    decode::head_in(words)
}

#[inline(always)]
pub fn work_words_in(words: &[i64; 134]) -> WorkWords
    ensures { result ≡ work_words_in words.now }
{
    decode::work_words_in(words)
}

pub fn figures_in(words: &[i64; 134]) -> Figures
    ensures { result ≡ figures_in words.now }
{
    Figures {
        root: words[19],
        left: words[20],
        len: words[21],
    }
}

#[tactic(auto, unfolding(crate::specs::computed::Words::bench_in, encoding::specs::computed::Words::bench_read))]
#[inline(always)]
pub fn bench_in(words: &[i64; 134]) -> Bench
    ensures { result ≡ bench_in words.now }
{
    decode::bench_in(words)
}

pub fn block_words_in(words: &[i64; 134], place: usize) -> BlockWords
    requires { place < 16 }
    ensures { result ≡ block_words_in words.now place }
{
    let at = 22 + 7 * place;
    BlockWords {
        kind: words[at],
        x: words[at + 1],
        y: words[at + 2],
        feed: words[at + 3],
        i: words[at + 4],
        j: words[at + 5],
        root: words[at + 6],
    }
}

fn path_of(b: BlockWords) -> Path
    ensures { result ≡ path_read b }
{
    match Turn::try_from(count(b.kind)) {
        Ok(turn) => Path::Arc(turn, Offset { x: b.i, y: b.j }),
        Err(_) => Path::Line,
    }
}

#[tactic(auto, unfolding(crate::specs::computed::Words::waiting_of))]
pub fn waiting_of(b: BlockWords) -> Waiting
    ensures { result ≡ waiting_of b }
{
    Waiting {
        block: Block {
            path: path_of(b),
            end: Point { x: b.x, y: b.y },
            feed: count(b.feed),
        },
        root: count(b.root),
    }
}

pub fn waiting_in(words: &[i64; 134], place: usize) -> Waiting
    requires { place < 16 }
    ensures { result ≡ waiting_in words.now place }
{
    waiting_of(block_words_in(words, place))
}

// The root of the block in work.
pub fn root_in(words: &[i64; 134]) -> u64
    ensures { result ≡ count_of (at words.now 19) }
{
    count(words[19])
}

// The cycles still to do.
pub fn left_in(words: &[i64; 134]) -> u64
    ensures { result ≡ count_of (at words.now 20) }
{
    count(words[20])
}

// How many wait.
pub fn len_in(words: &[i64; 134]) -> u64
    ensures { result ≡ len_in words.now }
{
    count(words[21])
}

// Where the next block starts behind this bench: the end of the last one that waits, else of the one in work, else the point.
pub fn start_in(words: &[i64; 134], k: Bench) -> Point
    requires { len_in words.now ≤ 16 }
    ensures { result ≡ start_of k (queue_in words.now (len_in words.now)) }
{
    let len = len_in(words);
    if len == 0 {
        return end_of(k.at, k.work);
    }
    waiting_in(words, (len - 1) as usize).block.end
}
