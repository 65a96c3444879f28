// The ticks of a check as 2 words, and back. `specs/Long.antt` says which word is what.
ghost use Rattle.std.specs.Prelude.{◌≡◌};
ghost use Rattle.progress.specs.Long.{long_words, high_read, long_read};
ghost use Rattle.progress.specs.computed.Right.{long_right};

use encoding::number::{count, is_count, word};
use plane::travel::{Range, within};
use row::long::LongCount;

#[derive(Clone, Copy)]
pub struct LongWords {
    pub low: i64,
    pub high: i64,
}

pub fn long_words(c: LongCount) -> LongWords
    ensures { result ≡ long_words c }
{
    LongWords {
        low: word(c.low),
        high: c.high as i64,
    }
}

// The high part has 32 bits.
fn high_of(word: i64) -> u32
    ensures { result ≡ high_read word }
{
    let n = count(word);
    if n < 4_294_967_296 {
        return n as u32;
    }
    0
}

pub fn long_of(w: LongWords) -> LongCount
    ensures { result ≡ long_read w }
{
    LongCount {
        low: count(w.low),
        high: high_of(w.high),
    }
}

pub fn long_right(w: LongWords) -> bool
    ensures { result ≡ long_right w }
{
    let highs = Range {
        lower: 0,
        upper: 4_294_967_295,
    };
    if !is_count(w.low) {
        return false;
    }
    within(highs, w.high)
}
