// A line of a job text for C, read at a record of 134 words. The G and F known stand in 2 words beside it. Words that are no sound record,
// or tell nothing known, get 9 and stay as they are; so do those of a refused line.
ghost use Rattle.std.specs.Prelude.{◌≡◌};
ghost use Rattle.textline.specs.computed.TextLine.{taken_of};
ghost use Rattle.record.specs.Words.{encode_of, over};
ghost use Rattle.record.specs.computed.Words.{machine_in};
ghost use Rattle.calls.specs.computed.Asked.{Asking};
ghost use Rattle.cmachine.specs.Texts.{read_number};
ghost use Rattle.cmachine.specs.computed.Texts.{heard_of, loads_of, tells_line, told_line_of};

use bench::{Answer, Bench};
use block::Block;
use calls::load_sound;
use encoding::number::{refusal, word};
use plane::point::Point;
use progress::known::{decode_known, encode_known};
use reader::Reader;
use reader::asked::{Asked, ToLoad, ask_line};
use reader::text_line::Read;
use record::read::{bench_in, start_in};
use record::sound::is_sound;

// What a line was read as, and what is known after it.
#[derive(Drop)]
struct Heard {
    pub read: Read,
    pub reader: Reader,
}

// A text line that makes no block is 0, as what is done.
fn read_number(read: Read) -> i64
    ensures { result ≡ read_number read }
{
    match read {
        Read::Nothing => 0,
        Read::Loaded(n) => word(n),
        Read::Refused(n) => refusal(n),
    }
}

// The block of a line, at the place where it starts; `before` is the reader before the line, `after` the one after it.
fn load(
    words: &mut [i64; 134],
    k: Bench,
    start: Point,
    before: Reader,
    after: Reader,
    b: Block,
) -> Heard
    requires { Asking words.old k start }
    ensures value { result ≡ heard_of (loads_of before after (machine_in words.old) b) }
    ensures words_after { words.new
        ≡ over (encode_of (loads_of before after (machine_in words.old) b).machine) words.old }
{
    let answer = load_sound(words, k, start, b);
    match answer {
        Ok(Answer::Done) => Heard {
            read: Read::Nothing,
            reader: after,
        },
        Ok(Answer::Width(bits)) => Heard {
            read: Read::Loaded(bits),
            reader: after,
        },
        Err(no) => Heard {
            read: Read::Refused(no.number()),
            reader: before,
        },
    }
}

// What a line asked, at the place where the next block starts.
fn take(words: &mut [i64; 134], k: Bench, start: Point, before: Reader, a: Asked) -> Heard
    requires { Asking words.old k start }
    ensures value { result ≡ heard_of (taken_of before (machine_in words.old) a) }
    ensures words_after { words.new
        ≡ over (encode_of (taken_of before (machine_in words.old) a).machine) words.old }
{
    let asks = a.asks;
    let after = a.reader;
    match asks {
        ToLoad::Nothing => Heard {
            read: Read::Nothing,
            reader: after,
        },
        ToLoad::Block(b) => load(words, k, start, before, after, b),
        ToLoad::Refused(no) => Heard {
            read: Read::Refused(no),
            reader: before,
        },
    }
}

// A line without its LF.
pub fn vz_read_line(words: &mut [i64; 134], known: &mut [i64; 2], line: &[u8]) -> i64
    ensures { tells_line result words.new known.new
        ≡ told_line_of words.old known.old line.now }
{
    if !is_sound(words) {
        return -9;
    }
    let Some(before) = decode_known(known) else {
        return -9;
    };
    let k = bench_in(words);
    let settings = k.settings;
    let start = start_in(words, k);
    let a = ask_line(before, settings.scale, start, line);
    let h = take(words, k, start, before, a);
    let read = h.read;
    let after = encode_known(h.reader);
    *known = after;
    read_number(read)
}
