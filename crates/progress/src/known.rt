// The G and F known as 2 words, and back. `specs/Known.antt` says which word is what.
ghost use Rattle.std.specs.Prelude.{◌≡◌};
ghost use Rattle.progress.specs.Known.{motion_word, feed_word, known_of, encode_known, feed_read, reader_of};
ghost use Rattle.progress.specs.computed.Known.{reader_told};
ghost use Rattle.progress.specs.computed.Right.{known_right};

use encoding::encode::turn_word;
use encoding::number::{count, word};
use plane::travel::{Range, within};
use reader::{Feed, Motion, Reader, motion_of};
use whole::sign::part;

#[derive(Clone, Copy)]
pub struct Known {
    pub motion: i64,
    pub feed: i64,
}

fn motion_word(motion: Option<Motion>) -> i64
    ensures { result ≡ motion_word motion }
{
    match motion {
        None => 0,
        Some(Motion::Line) => 1,
        Some(Motion::Arc(turn)) => turn_word(turn),
    }
}

fn feed_word(feed: Option<Feed>) -> i64
    ensures { result ≡ feed_word feed }
{
    match feed {
        None => -1,
        Some(known) => word(known.millimetres as u64 * 1_000 + known.thousandths as u64),
    }
}

pub fn known_of(k: Reader) -> Known
    ensures { result ≡ known_of k }
{
    Known {
        motion: motion_word(k.motion),
        feed: feed_word(k.feed),
    }
}

pub fn encode_known(k: Reader) -> [i64; 2]
    ensures { result ≡ encode_known k }
{
    let known = known_of(k);
    [known.motion, known.feed]
}

// As a text can write it: seven digits and three decimals.
fn feed_of(word: i64) -> Option<Feed>
    ensures { result ≡ feed_read word }
{
    let p = part(word);
    if p.negative || 10_000_000_000 <= p.magnitude {
        return None;
    }
    Some(Feed {
        millimetres: (p.magnitude / 1_000) as u32,
        thousandths: (p.magnitude % 1_000) as u32,
    })
}

pub fn reader_of(k: Known) -> Reader
    ensures { result ≡ reader_of k }
{
    Reader {
        motion: motion_of(count(k.motion)),
        feed: feed_of(k.feed),
    }
}

pub fn known_right(k: Known) -> bool
    ensures { result ≡ known_right k }
{
    let motions = Range { lower: 0, upper: 3 };
    let feeds = Range {
        lower: -1,
        upper: 9_999_999_999,
    };
    within(motions, k.motion) && within(feeds, k.feed)
}

// What is known, where the words tell it.
pub fn decode_known(words: &[i64; 2]) -> Option<Reader>
    ensures { result ≡ reader_told words.now }
{
    let known = Known {
        motion: words[0],
        feed: words[1],
    };
    if !known_right(known) {
        return None;
    }
    Some(reader_of(known))
}
