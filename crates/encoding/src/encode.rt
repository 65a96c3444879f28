// The record of a bench as 19 words that a caller in C owns. `specs/Words.antt` says which word is what.
ghost use Rattle.std.specs.Prelude.{◌≡◌};
ghost use Rattle.encoding.specs.Words.{mark_word, turn_word, work_words_of, head_of, words_of, encode_of};

use crate::number::word;
use arc::arc::Arc;
use bench::Bench;
use circle::plane::Turn;
use line::line::Line;
use plane::travel::Travel;
use work::Work;

// Word 0, the number of the layout, of these words and of those of a machine with a queue.
pub const ABI: i64 = 4;

// Words 1 to 10: the settings, the position, the mark and the remainder.
#[derive(Clone, Copy)]
pub struct Head {
    pub p: i64,
    pub w: i64,
    pub xlo: i64,
    pub xhi: i64,
    pub ylo: i64,
    pub yhi: i64,
    pub x: i64,
    pub y: i64,
    pub mark: i64,
    pub remainder: i64,
}

// Words 11 to 18: what is in work, and its numbers in the order that its kind gives them. The kind stays a number, as the mark of `Head`
// does, and the numbers keep letters: these are the words of the C interface, any of which a caller may hand in, of a kind that there is
// not.
#[derive(Drop)]
pub struct WorkWords {
    pub kind: i64,
    pub a: i64,
    pub b: i64,
    pub c: i64,
    pub d: i64,
    pub e: i64,
    pub f: i64,
    pub g: i64,
}

pub fn mark_word(held: bool) -> i64
    ensures { result ≡ mark_word held }
{
    i64::from(held)
}

pub fn turn_word(turn: Turn) -> i64
    ensures { result ≡ turn_word turn }
{
    word(u64::from(turn))
}

pub fn nothing_words() -> WorkWords
    ensures { result ≡ work_words_of Work.Nothing }
{
    WorkWords {
        kind: 0,
        a: 0,
        b: 0,
        c: 0,
        d: 0,
        e: 0,
        f: 0,
        g: 0,
    }
}

fn line_words(l: Line) -> WorkWords
    ensures { result ≡ work_words_of (Work.Line l) }
{
    WorkWords {
        kind: 1,
        a: l.start.x,
        b: l.start.y,
        c: l.end.x,
        d: l.end.y,
        e: word(l.feed),
        f: word(l.cycles),
        g: word(l.done),
    }
}

fn arc_words(a: Arc) -> WorkWords
    ensures { result ≡ work_words_of (Work.Arc a) }
{
    WorkWords {
        kind: turn_word(a.turn),
        a: a.centre.x,
        b: a.centre.y,
        c: word(a.square),
        d: a.end.x,
        e: a.end.y,
        f: word(a.feed),
        g: 0,
    }
}

pub fn work_words(work: Work) -> WorkWords
    ensures { result ≡ work_words_of work }
{
    match work {
        Work::Nothing => nothing_words(),
        Work::Line(l) => line_words(l),
        Work::Arc(a) => arc_words(a),
    }
}

fn head_words(m: Bench) -> Head
    ensures { result ≡ head_of m }
{
    let Travel { x, y } = m.settings.travel;
    Head {
        p: word(m.settings.scale),
        w: word(m.settings.clock),
        xlo: x.lower,
        xhi: x.upper,
        ylo: y.lower,
        yhi: y.upper,
        x: m.at.x,
        y: m.at.y,
        mark: mark_word(m.held),
        remainder: word(m.remainder),
    }
}

// The words in their order.
fn lay(h: Head, w: WorkWords) -> [i64; 19]
    ensures { result ≡ words_of h w }
{
    [
        ABI,
        h.p,
        h.w,
        h.xlo,
        h.xhi,
        h.ylo,
        h.yhi,
        h.x,
        h.y,
        h.mark,
        h.remainder,
        w.kind,
        w.a,
        w.b,
        w.c,
        w.d,
        w.e,
        w.f,
        w.g,
    ]
}

#[tactic(auto, unfolding(crate::specs::Words::encode_of))]
pub fn encode(m: Bench) -> [i64; 19]
    ensures { result ≡ encode_of m }
{
    lay(head_words(m), work_words(m.work))
}
