// What a call writes: the words that it changes, and no other. That the words are sound stands in the contracts and in no type: they lie in
// the array of the caller in C, and are changed in place.
ghost use Rattle.std.specs.Prelude.{◌≡◌, true, ◌≤◌, ◌<◌, set, Ok};
ghost use Rattle.work.specs.declared.Work.{Work};
ghost use Rattle.machine.specs.Calls.{mark_of, next_of};
ghost use Rattle.machine.specs.computed.Calls.{load_with};
ghost use Rattle.work.specs.Work.{begun_of};
ghost use Rattle.record.specs.Words.{block_words_of, encode_of, over};
ghost use Rattle.record.specs.computed.Words.{len_in, machine_in, sound_words};
ghost use Rattle.record.specs.computed.Write.{Bringing, Later, Loading, set_place, set_work, set_block, shifted, brought_of, working_of};
ghost use Rattle.record.specs.computed.Write.{waits_of};
ghost use Rattle.record.specs.computed.Write.{idle_of};
ghost use Rattle.encoding.specs.Words.{word_of};

use crate::read::{BlockWords, bench_in, left_in, len_in, waiting_in};
use bench::Bench;
use block::{Block, Path};
use encoding::encode::{WorkWords, mark_word, nothing_words, turn_word, work_words};
use encoding::number::word;
use plane::point::Point;
use queue::Waiting;
use work::rest::{cycles_left, root_of};
use work::{Work, begin, is_nothing};

fn set_place(words: &mut [i64; 134], at: Point, remainder: u64)
    ensures { words.new ≡ set_place words.old at remainder }
{
    words[7] = at.x;
    words[8] = at.y;
    words[10] = word(remainder);
}

fn set_work(words: &mut [i64; 134], w: WorkWords)
    ensures { words.new ≡ set_work words.old w }
{
    words[11] = w.kind;
    words[12] = w.a;
    words[13] = w.b;
    words[14] = w.c;
    words[15] = w.d;
    words[16] = w.e;
    words[17] = w.f;
    words[18] = w.g;
}

// The first block's words go, and those of the others, so many, move up by seven words.
fn shift(words: &mut [i64; 134], others: usize)
    requires { others < 16 }
    ensures { words.new ≡ shifted words.old others }
{
    words.copy_within(29..29 + 7 * others, 22);
}

// A block comes into work where one has ended: the first that waits, or none.
fn bring_in(words: &mut [i64; 134], at: Point)
    requires { Bringing words.old at }
    ensures { words.new ≡ brought_of words.old at (len_in words.old) }
{
    let len = len_in(words);
    if len == 0 {
        set_work(words, nothing_words());
        words[19] = 0;
        return;
    }
    let w = waiting_in(words, 0);
    let others = len - 1;
    set_work(words, work_words(begin(at, w.block).work));
    words[19] = word(w.root);
    words[21] = word(others);
    shift(words, others as usize);
}

fn set_done(words: &mut [i64; 134], done: u64)
    ensures { words.new ≡ set words.old 18 (word_of done) }
{
    words[18] = word(done);
}

// After ticks that left the bench so and so many cycles to do: where nothing is in work any more, the next block comes into work.
pub fn store_ticks(words: &mut [i64; 134], k: Bench, left: u64)
    requires { Later words.old k left }
    ensures { words.new ≡ over (encode_of (next_of k (machine_in words.old).queue)) words.old }
{
    set_place(words, k.at, k.remainder);
    words[20] = word(left);
    match k.work {
        Work::Nothing => bring_in(words, k.at),
        Work::Line(l) => set_done(words, l.done),
        Work::Arc(_) => {}
    }
}

fn block_words(w: Waiting) -> BlockWords
    ensures { result ≡ block_words_of w }
{
    let b = w.block;
    let (kind, i, j) = match b.path {
        Path::Line => (1, 0, 0),
        Path::Arc(turn, centre) => (turn_word(turn), centre.x, centre.y),
    };
    BlockWords {
        kind,
        x: b.end.x,
        y: b.end.y,
        feed: word(b.feed),
        i,
        j,
        root: word(w.root),
    }
}

fn set_block(words: &mut [i64; 134], at: usize, b: BlockWords)
    requires { at ≤ 127 }
    ensures { words.new ≡ set_block words.old at b }
{
    words[at] = b.kind;
    words[at + 1] = b.x;
    words[at + 2] = b.y;
    words[at + 3] = b.feed;
    words[at + 4] = b.i;
    words[at + 5] = b.j;
    words[at + 6] = b.root;
}

// After a load with nothing in work: the block comes into work.
pub fn into_work(words: &mut [i64; 134], w: Work, root: u64, left: u64)
    requires { sound_words words.old ≡ true }
    ensures { words.new ≡ over (encode_of (working_of (machine_in words.old) w root left)) words.old }
{
    set_work(words, work_words(w));
    words[19] = word(root);
    words[20] = word(left);
}

// After a load with a block in work: this one waits behind all others.
pub fn push(words: &mut [i64; 134], w: Waiting, left: u64)
    requires { (sound_words words.old ≡ true) × (len_in words.old < 16) }
    ensures { words.new ≡ over (encode_of (waits_of (machine_in words.old) w left)) words.old }
{
    let len = len_in(words);
    words[20] = word(left);
    words[21] = word(len + 1);
    set_block(words, 22 + 7 * len as usize, block_words(w));
}

// A block that no question refused, from here: into work where nothing is, else behind those that wait. Answers its width.
pub fn take(words: &mut [i64; 134], work: Work, start: Point, b: Block) -> u64
    requires { Loading words.old work start b }
    ensures value { result ≡ (begun_of start b).width }
    ensures words_after { words.new ≡ over (encode_of (load_with (machine_in words.old) b (Ok tt)).machine) words.old }
{
    let begun = begin(start, b);
    let root = root_of(begun.work);
    let left = left_in(words) + cycles_left(start, begun.work, root);
    if is_nothing(work) {
        into_work(words, begun.work, root, left);
        return begun.width;
    }
    let w = Waiting {
        block: b,
        root: root,
    };
    push(words, w, left);
    begun.width
}

// After a hold or a release.
pub fn store_mark(words: &mut [i64; 134], held: bool)
    requires { sound_words words.old ≡ true }
    ensures { words.new ≡ over (encode_of (mark_of (machine_in words.old) held)) words.old }
{
    words[9] = mark_word(held);
}

// After a stop: no remainder, and none waits, so that nothing comes into work.
pub fn store_stop(words: &mut [i64; 134])
    requires { sound_words words.old ≡ true }
    ensures { words.new ≡ over (encode_of (idle_of (machine_in words.old))) words.old }
{
    let k = bench_in(words);
    words[10] = 0;
    words[20] = 0;
    words[21] = 0;
    bring_in(words, k.at);
}
