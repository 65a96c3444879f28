// A run along a line: n is where the ticks asked for or the line end, so no byte after it is touched. The loop does the cycles that cannot
// be the line's last, and so tests nothing but the tick; the last one comes after it.
ghost use Rattle.std.specs.Prelude.{◌≡◌, ◌≤◌, length};
ghost use Rattle.work.specs.declared.Work.{Work};
ghost use Rattle.run.specs.computed.Run.{strip_of, ran_of, written};

use crate::Ran;
use crate::buffer::clear;
use crate::gap::{divide, first_gap, limit, next_gap, remainder_at};
use crate::in_work::LineInWork;
use circle::step::STRAIGHT;
use divider::FEED_SCALE;
use line::line::Line;
use line::stepper::Stepper;
use plane::byte::cycle_byte;
use work::Work;

impl LineInWork {
    pub(crate) fn run(self, most: u64, out: &mut [u8]) -> Ran
        requires { most ≤ length out.old }
        ensures value { result ≡ ran_of (strip_of self.capacity most self.at self.remainder (Work.Line self.line)) }
        ensures out_after { out.new ≡ written (strip_of self.capacity most self.at self.remainder (Work.Line self.line)).bytes out.old }
    {
        let line = self.line;
        let due = STRAIGHT * self.capacity;
        let added = FEED_SCALE * line.feed;
        let end = self.end(most);
        let n = most.min(end);
        let last = most.min(end - 1);
        clear(out, n);
        let parts = divide(due, added);
        let limit = limit(added, parts);
        let mut gap = first_gap(due, added, self.remainder);
        let mut stepper = Stepper::enter(line, self.at);
        let mut cycles = line.done;
        while gap.ticks < last {
            let s = stepper.advance();
            out[gap.ticks as usize] = cycle_byte(s.pulses, false);
            stepper = s.stepper;
            cycles += 1;
            gap = next_gap(due, added, parts, limit, gap);
        }
        if last < n {
            out[last as usize] = cycle_byte(stepper.advance().pulses, true);
            return Ran {
                ticks: n,
                cycles: cycles + 1 - line.done,
                ended: true,
                at: line.end,
                remainder: gap.remainder,
                work: Work::Nothing,
            };
        }
        let gone = Line {
            done: cycles,
            ..line
        };
        Ran {
            ticks: n,
            cycles: cycles - line.done,
            ended: false,
            at: gone.point(),
            remainder: remainder_at(due, added, gap, n),
            work: Work::Line(gone),
        }
    }
}
