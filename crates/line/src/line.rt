// A line in work: its numbers, the point that it has reached, and one cycle onward.
ghost use Rattle.std.specs.Prelude.{◌≡◌, true, ◌+◌, ◌*◌, ◌≤◌, eqb};
ghost use Rattle.whole.specs.computed.Sign.{join_of};
ghost use Rattle.whole.specs.Equal.{equal_z};
ghost use Rattle.plane.specs.Point.{equal_point};
ghost use Rattle.plane.specs.Pulse.{code_of};
ghost use Rattle.line.specs.computed.Register.{AxisFits};
ghost use Rattle.line.specs.Register.{pulses_of};
ghost use Rattle.line.specs.Line.{axis_steps, axis_moved, line_cycles, line_point, line_width, line_of};
ghost use Rattle.line.specs.computed.Line.{short_of, drawn_of, line_at, stepped_of};

use crate::register::{clock, has_moved, moved, register};
use plane::point::{Increments, Point, between};
use plane::pulse::{Pulses, code, pulsed};
use whole::root::{is_least_root, least_root};
use whole::sign::{SignMagnitude, join};
use whole::width::width;

#[derive(Clone, Copy)]
pub struct Line {
    pub start: Point,
    pub end: Point,
    // Feed number, thousandths of a pulse per minute.
    pub feed: u64,
    // Cycles that the line takes (document 01's q); kept so that no root is taken after the load.
    pub cycles: u64,
    // Cycles done (document 01's c), below `cycles` while the line is in work.
    pub done: u64,
}

// One cycle onward: the line, the point that it has reached then, and the pulses that led there.
#[derive(Drop)]
pub struct Stepped {
    pub line: Line,
    pub at: Point,
    pub pulses: Pulses,
}

// The longest increment that a line within travel can have.
const LONGEST: u64 = 2_000_000;

// The square of the length of a way.
fn square(way: Increments) -> u64
    requires { (way.x.magnitude ≤ 2000000) × (way.y.magnitude ≤ 2000000) }
    ensures { result ≡ way.x.magnitude * way.x.magnitude + way.y.magnitude * way.y.magnitude }
{
    way.x.magnitude * way.x.magnitude + way.y.magnitude * way.y.magnitude
}

// Whether a line takes q cycles, by two squares; any q may be asked.
#[tactic(auto, unfolding(crate::specs::Line::line_cycles))]
pub fn takes(start: Point, end: Point, q: u64) -> bool
    requires { short_of start end ≡ true }
    ensures { result ≡ eqb q (line_cycles start end) }
{
    is_least_root(square(between(start, end)), q)
}

// Whether an axis that was to go `way` has gone `gone` after `done` of q cycles.
#[tactic(auto, using(crate::specs::laws::Signed::axis_wrong, crate::specs::laws::Signed::axis_none, crate::specs::laws::Signed::axis_sign))]
fn axis_at(q: u64, done: u64, way: SignMagnitude, gone: SignMagnitude) -> bool
    requires { AxisFits q way.magnitude done }
    ensures { result ≡ equal_z (join_of gone) (axis_moved q (join_of way) done) }
{
    has_moved(q, way.magnitude, done, gone.magnitude)
        && (gone.magnitude == 0 || gone.negative == way.negative)
}

// The code of an axis in the next cycle, from what it has moved.
fn axis_code(q: u64, done: u64, way: SignMagnitude, moved: u64) -> u8
    requires { AxisFits q way.magnitude done × (moved ≡ axis_steps q way.magnitude done) }
    ensures { result ≡ code_of (pulses_of q way.magnitude done) way.negative }
{
    let k = clock(q, way.magnitude, register(q, way.magnitude, done, moved));
    code(k.pulse, way.negative)
}

// How far an axis has gone, in its direction.
fn axis_moved(q: u64, done: u64, way: SignMagnitude) -> i64
    requires { AxisFits q way.magnitude done }
    ensures { result ≡ axis_moved q (join_of way) done }
{
    join(SignMagnitude {
        negative: way.negative,
        magnitude: moved(q, way.magnitude, done),
    })
}

impl Line {
    // A line newly loaded.
    #[tactic(auto, unfolding(crate::specs::Line::line_cycles))]
    pub fn new(start: Point, end: Point, feed: u64) -> Line
        requires { short_of start end ≡ true }
        ensures { result ≡ line_of start end feed }
    {
        Line {
            start,
            end,
            feed,
            cycles: least_root(square(between(start, end))),
            done: 0,
        }
    }

    // The fewest bits that hold the longer increment: what a load answers.
    #[tactic(auto, unfolding(crate::specs::Line::line_width))]
    pub fn width(self) -> u64
        ensures { result ≡ line_width self.start self.end }
    {
        let way = between(self.start, self.end);
        width(way.x.magnitude.max(way.y.magnitude))
    }

    // Whether the numbers are those of a line in work, whatever they are: lengths are compared before they are multiplied.
    #[tactic(auto, unfolding(crate::specs::computed::Line::drawn_of))]
    fn is_drawn(self) -> bool
        ensures { result ≡ drawn_of self }
    {
        let way = between(self.start, self.end);
        way.x.magnitude <= LONGEST
            && way.y.magnitude <= LONGEST
            && takes(self.start, self.end, self.cycles)
            && self.done < self.cycles
    }

    // Whether the line has reached this point, by products alone.
    fn has_reached(self, at: Point) -> bool
        requires { drawn_of self ≡ true }
        ensures { result ≡ equal_point at (line_point self.start self.end self.done) }
    {
        let way = between(self.start, self.end);
        let gone = between(self.start, at);
        axis_at(self.cycles, self.done, way.x, gone.x)
            && axis_at(self.cycles, self.done, way.y, gone.y)
    }

    // Whether this is a line in work at this point, for any line and any point.
    #[tactic(auto, unfolding(crate::specs::computed::Line::line_at))]
    pub fn is_at(self, at: Point) -> bool
        ensures { result ≡ line_at self at }
    {
        self.is_drawn() && self.has_reached(at)
    }

    // The codes of the next cycle, with no division: each axis clocks its register.
    fn codes(self, at: Point) -> Pulses
        requires { line_at self at ≡ true }
        ensures { result ≡ (stepped_of self).pulses }
    {
        let way = between(self.start, self.end);
        let gone = between(self.start, at);
        Pulses {
            x: axis_code(self.cycles, self.done, way.x, gone.x.magnitude),
            y: axis_code(self.cycles, self.done, way.y, gone.y.magnitude),
        }
    }

    // One cycle onward.
    pub fn step(self, at: Point) -> Stepped
        requires { line_at self at ≡ true }
        ensures { result ≡ stepped_of self }
    {
        let pulses = self.codes(at);
        Stepped {
            line: Line {
                done: self.done + 1,
                ..self
            },
            at: pulsed(at, pulses),
            pulses,
        }
    }

    // The point after the cycles done.
    pub fn point(self) -> Point
        requires { drawn_of self ≡ true }
        ensures { result ≡ line_point self.start self.end self.done }
    {
        let way = between(self.start, self.end);
        Point {
            x: self.start.x + axis_moved(self.cycles, self.done, way.x),
            y: self.start.y + axis_moved(self.cycles, self.done, way.y),
        }
    }
}
