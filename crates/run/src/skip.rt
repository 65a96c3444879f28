// The ticks of a run without their bytes: what is left gives the end tick, and what the ticks add the cycles done before it and their
// point. The cost does not grow with the ticks.
ghost use Rattle.std.specs.Prelude.{◌≡◌, ◌<◌};
ghost use Rattle.arc.specs.computed.Arc.{arc_cycles};
ghost use Rattle.work.specs.Work.{cycles_left};
ghost use Rattle.work.specs.declared.Work.{Work};
ghost use Rattle.work.specs.computed.Work.{last_tick_for};
ghost use Rattle.work.specs.computed.Rest.{left_of};
ghost use Rattle.run.specs.computed.Run.{strip_of, ran_of};

use crate::Ran;
use crate::in_work::{ArcInWork, InWork, LineInWork};
use circle::step::STRAIGHT;
use divider::{FEED_SCALE, add_feeds, ending};
use line::line::Line;
use work::Work;
use work::rest::{Left, work_left};

impl LineInWork {
    // So many ticks on, before its end: a line's cycles are all charged the same.
    fn on(self, ticks: u64) -> Ran
        requires { ticks < last_tick_for self.capacity self.at self.remainder (Work.Line self.line) }
        ensures { result ≡ ran_of (strip_of self.capacity ticks self.at self.remainder (Work.Line self.line)) }
    {
        let line = self.line;
        let gone = add_feeds(
            STRAIGHT * self.capacity,
            FEED_SCALE * line.feed,
            self.remainder,
            ticks,
        );
        let on = Line {
            done: line.done + gone.cycles,
            ..line
        };
        Ran {
            ticks,
            cycles: gone.cycles,
            ended: false,
            at: on.point(),
            remainder: gone.remainder,
            work: Work::Line(on),
        }
    }
}

impl ArcInWork {
    // So many ticks on, before its end: as many cycles as the sum of the ticks pays, at most one a tick.
    fn on(self, cycles: u64, ticks: u64) -> Ran
        requires { (cycles ≡ arc_cycles self.arc self.at)
            × (ticks < last_tick_for self.capacity self.at self.remainder (Work.Arc self.arc)) }
        ensures { result ≡ ran_of (strip_of self.capacity ticks self.at self.remainder (Work.Arc self.arc)) }
    {
        let arc = self.arc;
        let sum = self.remainder + ticks * (FEED_SCALE * arc.feed);
        let paid = arc.paid(self.at, ticks.min(cycles - 1), sum / self.capacity);
        Ran {
            ticks,
            cycles: paid.cycles,
            ended: false,
            at: paid.at,
            remainder: sum - paid.charges * self.capacity,
            work: Work::Arc(arc),
        }
    }
}

// What is in work so many ticks on, before its end.
fn work_on(here: InWork, cycles: u64, ticks: u64) -> Ran
    requires { (cycles ≡ cycles_left here.at here.work) × (ticks < last_tick_for here.capacity here.at here.remainder here.work) }
    ensures { result ≡ ran_of (strip_of here.capacity ticks here.at here.remainder here.work) }
{
    let capacity = here.capacity;
    let at = here.at;
    let remainder = here.remainder;
    match here.work {
        Work::Nothing => unreachable!(),
        Work::Line(line) => LineInWork {
            capacity,
            at,
            remainder,
            line,
        }
        .on(ticks),
        Work::Arc(arc) => ArcInWork {
            capacity,
            at,
            remainder,
            arc,
        }
        .on(cycles, ticks),
    }
}

// By what is left: to the block's end, or as far as the ticks go.
fn skip_left(here: InWork, left: Left, ticks: u64) -> Ran
    requires { left ≡ left_of here.at here.work }
    ensures { result ≡ ran_of (strip_of here.capacity ticks here.at here.remainder here.work) }
{
    let last = ending(
        left.charges * here.capacity,
        FEED_SCALE * left.feed,
        here.remainder,
        left.cycles,
    );
    if last.tick <= ticks {
        return Ran {
            ticks: last.tick,
            cycles: left.cycles,
            ended: true,
            at: left.end,
            remainder: last.remainder,
            work: Work::Nothing,
        };
    }
    work_on(here, left.cycles, ticks)
}

// What a run of at most so many ticks of the line or the arc in work leaves.
pub fn skip_work(here: InWork, ticks: u64) -> Ran
    ensures { result ≡ ran_of (strip_of here.capacity ticks here.at here.remainder here.work) }
{
    skip_left(here, work_left(here.at, here.work), ticks)
}
