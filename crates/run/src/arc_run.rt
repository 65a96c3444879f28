// A run along an arc, as along a line. The tracer tells what the next cycle is charged, and there are two dues: a straight step's and a
// diagonal one's. So it is a loop of its own: a line's, which has one due, would be slower by the choice between them.
ghost use Rattle.std.specs.Prelude.{◌≡◌, ◌≤◌, length};
ghost use Rattle.work.specs.declared.Work.{Work};
ghost use Rattle.run.specs.computed.Run.{strip_of, ran_of, written};

use crate::Ran;
use crate::buffer::clear;
use crate::gap::{arc_gap, divide, first_gap, remainder_at};
use crate::in_work::ArcInWork;
use arc::stepper::Tracer;
use circle::step::{DIAGONAL, STRAIGHT};
use divider::FEED_SCALE;
use plane::byte::with_marks;
use work::Work;

impl ArcInWork {
    pub(crate) fn run(self, most: u64, out: &mut [u8]) -> Ran
        requires { most ≤ length out.old }
        ensures value { result ≡ ran_of (strip_of self.capacity most self.at self.remainder (Work.Arc self.arc)) }
        ensures out_after { out.new ≡ written (strip_of self.capacity most self.at self.remainder (Work.Arc self.arc)).bytes out.old }
    {
        let capacity = self.capacity;
        let arc = self.arc;
        let added = FEED_SCALE * arc.feed;
        let end = self.end(most);
        let n = most.min(end);
        let last = most.min(end - 1);
        clear(out, n);
        let straight = divide(STRAIGHT * capacity, added);
        let diagonal = divide(DIAGONAL * capacity, added);
        let mut tracer = Tracer::enter(arc, self.at);
        let mut gap = first_gap(tracer.charge() * capacity, added, self.remainder);
        let mut cycles: u64 = 0;
        while gap.ticks < last {
            let t = tracer.cycle();
            out[gap.ticks as usize] = with_marks(t.code, false);
            tracer = t.tracer;
            cycles += 1;
            gap = arc_gap(capacity, added, straight, diagonal, tracer.next, gap);
        }
        if last < n {
            out[last as usize] = with_marks(tracer.last_code(), true);
            return Ran {
                ticks: n,
                cycles: cycles + 1,
                ended: true,
                at: arc.end,
                remainder: gap.remainder,
                work: Work::Nothing,
            };
        }
        Ran {
            ticks: n,
            cycles,
            ended: false,
            at: tracer.leave(arc.centre),
            remainder: remainder_at(tracer.charge() * capacity, added, gap, n),
            work: Work::Arc(arc),
        }
    }
}
