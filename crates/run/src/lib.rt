// The ticks of a run, over what is in work. A run does not go tick by tick: it clears its bytes at once, since most ticks have byte 0, and
// then goes from cycle to cycle and writes the bytes of those.
#![tactic(auto)]

ghost use Rattle.std.specs.Prelude.{◌≡◌, min, length};
ghost use Rattle.run.specs.computed.Run.{strip_of, ran_of, written};

use in_work::{ArcInWork, InWork, LineInWork};
use plane::point::Point;
use work::Work;

mod arc_run;
mod buffer;
mod ending;
mod gap;
pub mod in_work;
mod line_run;
pub mod skip;

// What a run reports, and what it leaves. `ended`: its last tick ended the block.
#[derive(Drop)]
pub struct Ran {
    pub ticks: u64,
    // How many of the ticks did a cycle.
    pub cycles: u64,
    pub ended: bool,
    pub at: Point,
    pub remainder: u64,
    pub work: Work,
}

// A run of the line or the arc in work.
pub fn run_work(here: InWork, budget: u64, out: &mut [u8]) -> Ran
    ensures value { result ≡ ran_of (strip_of here.capacity (min budget (length out.old)) here.at here.remainder here.work) }
    ensures out_after { out.new
        ≡ written (strip_of here.capacity (min budget (length out.old)) here.at here.remainder here.work).bytes out.old }
{
    let most = budget.min(out.len() as u64);
    let capacity = here.capacity;
    let at = here.at;
    let remainder = here.remainder;
    match here.work {
        Work::Nothing => unreachable!(),
        Work::Line(line) => LineInWork {
            capacity,
            at,
            remainder,
            line,
        }
        .run(most, out),
        Work::Arc(arc) => ArcInWork {
            capacity,
            at,
            remainder,
            arc,
        }
        .run(most, out),
    }
}
