// Whether words are a sound record, for any words whatever. With none waiting the first 22 words are looked at and no other.
ghost use Rattle.std.specs.Prelude.{◌≡◌, true};
ghost use Rattle.plane.specs.Travel.{inside_of};
ghost use Rattle.plane.specs.computed.Travel.{Wide};
ghost use Rattle.encoding.specs.Words.{at};
ghost use Rattle.record.specs.computed.Words.{sound_words};
ghost use Rattle.record.specs.computed.Right.{figures_right, is_front, kind_right, block_row_right, row_sound, waiting_sound};

use crate::read::{
    BlockWords, Figures, bench_in, block_words_in, figures_in, head_in, left_in, len_in, root_in,
    waiting_of, work_words_in,
};
use bench::sound;
use bench::tested::SoundBench;
use encoding::number::is_count;
use encoding::right::words_right;
use machine::waiting::work_off;
use plane::point::Point;
use plane::travel::Travel;
use queue::take_off;
use settings::capacity;
use work::is_nothing;
use work::rest::end_of;

#[tactic(auto, unfolding(crate::specs::computed::Right::figures_right))]
fn figures_right(f: Figures) -> bool
    ensures { result ≡ figures_right f }
{
    is_count(f.root) && is_count(f.left) && is_count(f.len)
}

// Whether the words in front are those of what they tell. Each that is no position is asked whether `encode_of` gives such, so that nothing
// need be encoded again.
fn is_front(words: &[i64; 134]) -> bool
    ensures { result ≡ is_front words.now }
{
    let figures = figures_in(words);
    words_right(words[0], head_in(words), work_words_in(words)) && figures_right(figures)
}

// Whether a block's kind is one, and of a line the centre's words are 0.
fn is_kind(b: BlockWords) -> bool
    ensures { result ≡ kind_right b }
{
    if b.kind == 1 {
        return b.i == 0 && b.j == 0;
    }
    b.kind == 2 || b.kind == 3
}

// Whether a block's words are those of what they tell.
fn is_block(b: BlockWords) -> bool
    ensures { result ≡ block_row_right b }
{
    is_count(b.feed) && is_count(b.root) && is_kind(b)
}

// Whether the words of so many blocks that wait are right, they are sound behind a block that ends at `from`, and they take so many cycles.
// A twin of `Queue::is_sound` on purpose: that one goes over a queue's places and this one over words, which are tested where they stand,
// block by block, so that no queue is built.
fn row_right(
    words: &[i64; 134],
    len: u64,
    capacity: u64,
    travel: Travel,
    from: Point,
    cycles: u64,
) -> bool
    requires { Wide travel × (inside_of travel from ≡ true) }
    ensures { result ≡ row_sound capacity travel words.now len from cycles }
{
    if 16 < len {
        return false;
    }
    let mut start = from;
    let mut left = cycles;
    for place in 0..len as usize {
        let b = block_words_in(words, place);
        if !is_block(b) {
            return false;
        }
        let w = waiting_of(b);
        let Some(rest) = take_off(capacity, travel, start, w, left) else {
            return false;
        };
        left = rest;
        start = w.block.end;
    }
    left == 0
}

// Whether root, figure and queue are right behind a bench.
fn waiting_right(words: &[i64; 134], tested: SoundBench) -> bool
    ensures { result ≡ waiting_sound words.now tested.bench }
{
    let k = tested.bench;
    let Some(rest) = work_off(k.at, k.work, root_in(words), left_in(words)) else {
        return false;
    };
    let len = len_in(words);
    if len == 0 {
        return rest == 0;
    }
    if is_nothing(k.work) {
        return false;
    }
    row_right(
        words,
        len,
        capacity(k.settings),
        k.settings.travel,
        end_of(k.at, k.work),
        rest,
    )
}

// Whether the words are those of a sound record.
pub fn is_sound(words: &[i64; 134]) -> bool
    ensures { result ≡ sound_words words.now }
{
    if !is_front(words) {
        return false;
    }
    let k = bench_in(words);
    sound(k.settings, k.at, k.remainder, k.work) && waiting_right(words, SoundBench { bench: k })
}
