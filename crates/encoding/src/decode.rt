// The bench that 19 words tell, and whether they are a sound record.
ghost use Rattle.std.specs.Prelude.{◌≡◌, ◌≤◌, length};
ghost use Rattle.encoding.specs.computed.Words.{line_read, arc_read, work_read, head_in, work_words_in, settings_in, bench_of, bench_read};
ghost use Rattle.encoding.specs.computed.Words.{is_record};
ghost use Rattle.encoding.specs.computed.Words.{sound_words};

use crate::encode::{Head, WorkWords};
use crate::given::settings;
use crate::number::count;
use crate::right::words_right;
use arc::arc::Arc;
use bench::{Bench, sound};
use circle::plane::Turn;
use line::line::Line;
use plane::point::Point;
use settings::Settings;
use work::Work;

fn line_of(w: WorkWords) -> Line
    ensures { result ≡ line_read w }
{
    Line {
        start: Point { x: w.a, y: w.b },
        end: Point { x: w.c, y: w.d },
        feed: count(w.e),
        cycles: count(w.f),
        done: count(w.g),
    }
}

fn arc_of(turn: Turn, w: WorkWords) -> Arc
    ensures { result ≡ arc_read turn w }
{
    Arc {
        centre: Point { x: w.a, y: w.b },
        square: count(w.c),
        turn,
        end: Point { x: w.d, y: w.e },
        feed: count(w.f),
    }
}

#[inline(always)]
pub fn work_of(w: WorkWords) -> Work
    ensures { result ≡ work_read w }
{
    let kind = count(w.kind);
    if kind == 1 {
        return Work::Line(line_of(w));
    }
    match Turn::try_from(kind) {
        Ok(turn) => Work::Arc(arc_of(turn, w)),
        Err(_) => Work::Nothing,
    }
}

// The words may have others behind them, as those of a machine with a queue have.
#[inline(always)]
pub fn head_in(words: &[i64]) -> Head
    requires { 19 ≤ length words.now }
    ensures { result ≡ head_in words.now }
{
    Head {
        p: words[1],
        w: words[2],
        xlo: words[3],
        xhi: words[4],
        ylo: words[5],
        yhi: words[6],
        x: words[7],
        y: words[8],
        mark: words[9],
        remainder: words[10],
    }
}

#[inline(always)]
pub fn work_words_in(words: &[i64]) -> WorkWords
    requires { 19 ≤ length words.now }
    ensures { result ≡ work_words_in words.now }
{
    WorkWords {
        kind: words[11],
        a: words[12],
        b: words[13],
        c: words[14],
        d: words[15],
        e: words[16],
        f: words[17],
        g: words[18],
    }
}

fn settings_in(h: Head) -> Settings
    ensures { result ≡ settings_in h }
{
    settings(h.p, h.w, h.xlo, h.xhi, h.ylo, h.yhi)
}

#[inline(always)]
pub fn bench_of(h: Head, work: Work) -> Bench
    ensures { result ≡ bench_of h work }
{
    Bench {
        settings: settings_in(h),
        at: Point { x: h.x, y: h.y },
        held: count(h.mark) == 1,
        remainder: count(h.remainder),
        work,
    }
}

// Whether the words are a record. Each that is no position is asked whether `encode` writes such, so that nothing need be encoded again.
fn is_record(words: &[i64; 19]) -> bool
    ensures { result ≡ is_record words.now }
{
    words_right(words[0], head_in(words), work_words_in(words))
}

// The bench that words tell, whatever they are. They may have others behind them.
#[tactic(auto, unfolding(crate::specs::computed::Words::bench_read))]
#[inline(always)]
pub fn bench_in(words: &[i64]) -> Bench
    requires { 19 ≤ length words.now }
    ensures { result ≡ bench_read words.now }
{
    bench_of(head_in(words), work_of(work_words_in(words)))
}

// The same of 19 words, which need nobody's proof that there are as many.
#[inline(always)]
pub fn bench_read(words: &[i64; 19]) -> Bench
    ensures { result ≡ bench_read words.now }
{
    bench_in(words)
}

// Whether the words are those of a sound record.
#[tactic(auto, unfolding(crate::specs::computed::Words::sound_words))]
pub fn is_sound(words: &[i64; 19]) -> bool
    ensures { result ≡ sound_words words.now }
{
    if !is_record(words) {
        return false;
    }
    let m = bench_read(words);
    sound(m.settings, m.at, m.remainder, m.work)
}
