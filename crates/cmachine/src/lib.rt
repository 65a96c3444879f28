// The calls for C on a record of 134 words that the caller owns. `include/verdaizka.h` declares them. Each answers for any words: those
// that are no sound record get 9 and stay as they are, and so do those of a refused load.
#![tactic(auto)]

ghost use Rattle.std.specs.Prelude.{◌≡◌};
ghost use Rattle.circle.specs.declared.plane.Turn.{Turn};
ghost use Rattle.block.specs.declared.Path.{Path};
ghost use Rattle.encoding.specs.Words.{settings_of};
ghost use Rattle.calls.specs.Calls.{WordCall};
ghost use Rattle.calls.specs.computed.Calls.{tells, told_of, made_of, tells_run, told_run_of};
ghost use Rattle.cmachine.specs.Given.{arc_path, block_given};

use crate::given::{arc, block};
use block::Path;
use calls::{hold, load, make, release, run, stop, tick};
use circle::plane::Turn;

mod given;
pub mod lookahead;
pub mod text;

// ---- make

// Whatever the words were, those in front are a record after it.
pub fn vz_make(
    words: &mut [i64; 134],
    p: i64,
    w: i64,
    xlo: i64,
    xhi: i64,
    ylo: i64,
    yhi: i64,
) -> i64
    ensures { tells result words.new ≡ made_of words.old (settings_of p w xlo xhi ylo yhi) }
{
    make(words, p, w, xlo, xhi, ylo, yhi)
}

// ---- load

pub fn vz_load_line(words: &mut [i64; 134], x: i64, y: i64, feed: i64) -> i64
    ensures { tells result words.new ≡ told_of words.old (WordCall.load (block_given Path.Line x y feed)) }
{
    load(words, block(Path::Line, x, y, feed))
}

pub fn vz_load_cw(words: &mut [i64; 134], x: i64, y: i64, feed: i64, i: i64, j: i64) -> i64
    ensures { tells result words.new
        ≡ told_of words.old (WordCall.load (block_given (arc_path Turn.Clockwise i j) x y feed)) }
{
    let path = arc(Turn::Clockwise, i, j);
    load(words, block(path, x, y, feed))
}

pub fn vz_load_ccw(words: &mut [i64; 134], x: i64, y: i64, feed: i64, i: i64, j: i64) -> i64
    ensures { tells result words.new
        ≡ told_of words.old (WordCall.load (block_given (arc_path Turn.Counterclockwise i j) x y feed)) }
{
    let path = arc(Turn::Counterclockwise, i, j);
    load(words, block(path, x, y, feed))
}

// ---- ticks

pub fn vz_tick(words: &mut [i64; 134]) -> i64
    ensures { tells result words.new ≡ told_of words.old WordCall.tick }
{
    tick(words)
}

// The tick bytes go to the front of the buffer; the rest of it stays.
pub fn vz_run(words: &mut [i64; 134], budget: u64, out: &mut [u8], ticks: &mut u64) -> i64
    ensures { tells_run result ticks.new words.new out.new
        ≡ told_run_of words.old budget out.old }
{
    run(words, budget, out, ticks)
}

// ---- hold, release, stop

pub fn vz_hold(words: &mut [i64; 134]) -> i64
    ensures { tells result words.new ≡ told_of words.old WordCall.hold }
{
    hold(words)
}

pub fn vz_release(words: &mut [i64; 134]) -> i64
    ensures { tells result words.new ≡ told_of words.old WordCall.release }
{
    release(words)
}

pub fn vz_stop(words: &mut [i64; 134]) -> i64
    ensures { tells result words.new ≡ told_of words.old WordCall.stop }
{
    stop(words)
}
