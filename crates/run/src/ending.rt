// The end tick as far as a run asks it: exact where the run can reach it, else one beyond the run. Most runs of a long block cannot, and
// then need no division, and on an arc no count of what is left and no root.
ghost use Rattle.std.specs.Prelude.{◌≡◌, ◌-◌, ◌*◌, ◌≤◌, ◌<◌};
ghost use Rattle.divider.specs.computed.Divider.{last_tick};
ghost use Rattle.arc.specs.computed.Arc.{arc_cycles};
ghost use Rattle.arc.specs.computed.Charge.{arc_charges};
ghost use Rattle.run.specs.computed.Ending.{falls_short, longer_of, Same};

use crate::in_work::{ArcInWork, LineInWork};
use circle::step::STRAIGHT;
use divider::{FEED_SCALE, last_tick};
use plane::point::{Point, between};

// Whether what so many ticks add does not reach this due. The bound keeps their product in 64 bits.
#[tactic(auto, unfolding(crate::specs::computed::Ending::falls_short))]
fn falls_short(due: u64, added: u64, remainder: u64, ticks: u64) -> bool
    requires { (added ≤ 1200000000000) × (remainder ≤ 1696800000000) }
    ensures { result ≡ falls_short due added remainder ticks }
{
    ticks < 10_000_000 && remainder + ticks * added < due
}

// The longer way between two points on one axis.
fn longer_way(from: Point, to: Point) -> u64
    ensures { result ≡ longer_of from to }
{
    let way = between(from, to);
    way.x.magnitude.max(way.y.magnitude)
}

impl LineInWork {
    pub(crate) fn end(self, most: u64) -> u64
        ensures { let line = self.line in
            let left = line.cycles - line.done in
            Same most result (last_tick (1000 * left * self.capacity) (1000 * line.feed) self.remainder left) }
    {
        let left = self.line.cycles - self.line.done;
        let due = STRAIGHT * left * self.capacity;
        let added = FEED_SCALE * self.line.feed;
        if falls_short(due, added, self.remainder, most) {
            return most + 1;
        }
        last_tick(due, added, self.remainder, left)
    }
}

impl ArcInWork {
    // A cycle sends one pulse at most on each axis, so as many are left as the longer way has, and each is charged 1,000 at least.
    pub(crate) fn end(self, most: u64) -> u64
        ensures { let due = arc_charges self.arc self.at * self.capacity in
            Same most result (last_tick due (1000 * self.arc.feed) self.remainder (arc_cycles self.arc self.at)) }
    {
        let added = FEED_SCALE * self.arc.feed;
        let least = STRAIGHT * longer_way(self.at, self.arc.end) * self.capacity;
        if falls_short(least, added, self.remainder, most) {
            return most + 1;
        }
        let span = self.arc.span(self.at);
        last_tick(
            span.charges * self.capacity,
            added,
            self.remainder,
            span.cycles,
        )
    }
}
