// An arc in work: the points that it visits, its test, one cycle onward or many, and what they are charged.
ghost use Rattle.std.specs.Prelude.{◌≡◌, true, ◌<◌};
ghost use Rattle.plane.specs.Travel.{inside_of, visits_inside};
ghost use Rattle.plane.specs.Point.{Near};
ghost use Rattle.plane.specs.computed.Travel.{Wide};
ghost use Rattle.circle.specs.Circle.{on_circle};
ghost use Rattle.circle.specs.Circle.{quarter_of};
ghost use Rattle.arc.specs.Centre.{seen_from};
ghost use Rattle.arc.specs.computed.Charge.{arc_charge, arc_span_of, arc_paid_of};
ghost use Rattle.arc.specs.computed.Arc.{StandsOnArc, arc_after, arc_cycles, arc_at, arc_stepped, centres};
ghost use Rattle.arc.specs.Arc.{arc_width};

use crate::centre::{back, room, seen};
use charges::{Paid, Span};
use circle::plane::{Turn, on_circle};
use circle::step::step;
use plane::point::Point;
use plane::pulse::{Pulses, changes};
use plane::travel::{Range, Travel, inside};

#[derive(Clone, Copy)]
pub struct Arc {
    pub centre: Point,
    // Document 01's N, the square of the radius.
    pub square: u64,
    pub turn: Turn,
    pub end: Point,
    // Feed number, thousandths of a pulse per minute.
    pub feed: u64,
}

// One cycle onward: the point that the arc has reached then, and the pulses that led there.
#[derive(Drop)]
pub struct Stepped {
    pub at: Point,
    pub pulses: Pulses,
}

// Whether the centre is one that an arc in work can have.
fn is_centre(p: Point) -> bool
    ensures { result ≡ inside_of centres p }
{
    let range = Range {
        lower: -2_000_000,
        upper: 2_000_000,
    };
    inside(Travel { x: range, y: range }, p)
}

impl Arc {
    // Question 15: whether the end is a circle point.
    pub fn ends_on_circle(self) -> bool
        requires { Near 2000000 self.centre × Near 2000000 self.end }
        ensures { result ≡ on_circle self.square (seen_from self.centre self.end) }
    {
        on_circle(self.square, seen(self.centre, self.end))
    }

    // Question 16: whether every point still to visit is in travel, without walking there.
    pub fn stays(self, travel: Travel, at: Point) -> bool
        requires { StandsOnArc self at × Wide travel × (inside_of travel at ≡ true) }
        ensures { result ≡ visits_inside travel (arc_after self at) (arc_cycles self at) }
    {
        clearance::stays_inside(
            room(travel, self.centre),
            self.square,
            self.turn,
            seen(self.centre, at),
            seen(self.centre, self.end),
        )
    }

    // Whether this is an arc in work at this point, whatever its numbers.
    #[tactic(auto, using(crate::specs::laws::Work::in_work), unfolding(crate::specs::computed::Arc::arc_at))]
    pub fn is_at(self, travel: Travel, at: Point) -> bool
        requires { Wide travel × (inside_of travel at ≡ true) }
        ensures { result ≡ arc_at travel self at }
    {
        is_centre(self.centre)
            && inside(travel, self.end)
            && on_circle(self.square, seen(self.centre, at))
            && self.ends_on_circle()
            && self.stays(travel, at)
    }

    // One cycle onward.
    pub fn step(self, at: Point) -> Stepped
        requires { StandsOnArc self at }
        ensures { result ≡ arc_stepped self at }
    {
        let next = back(
            self.centre,
            step(self.square, self.turn, seen(self.centre, at)),
        );
        Stepped {
            at: next,
            pulses: changes(at, next),
        }
    }

    // The span from here to the end, without walking it: its cycles, and what they are charged.
    pub fn span(self, at: Point) -> Span
        requires { StandsOnArc self at }
        ensures { result ≡ arc_span_of self at }
    {
        charges::sum::span(
            self.square,
            self.turn,
            seen(self.centre, at),
            seen(self.centre, self.end),
        )
    }

    // The cycles of that span alone, from those of a quarter turn, which the caller knows: no root is taken.
    pub fn cycles(self, quarter: u64, at: Point) -> u64
        requires { StandsOnArc self at × (quarter ≡ quarter_of self.square) }
        ensures { result ≡ arc_cycles self at }
    {
        circle::count::cycles(
            self.square,
            quarter,
            self.turn,
            seen(self.centre, at),
            seen(self.centre, self.end),
        )
    }

    // What the next cycle is charged.
    pub fn charge(self, at: Point) -> u64
        requires { StandsOnArc self at }
        ensures { result ≡ arc_charge self at }
    {
        circle::step::charge(self.square, self.turn, seen(self.centre, at))
    }

    // The most cycles from here on, at most so many, whose charges the sum holds, without walking them.
    pub fn paid(self, at: Point, most: u64, sum: u64) -> Paid<Point>
        requires { StandsOnArc self at × (most < arc_cycles self at) }
        ensures { result ≡ arc_paid_of self at most sum }
    {
        let r = charges::search::paid(self.square, self.turn, seen(self.centre, at), most, sum);
        Paid {
            cycles: r.cycles,
            charges: r.charges,
            at: back(self.centre, r.at),
        }
    }

    // The register width that a load answers.
    #[tactic(auto, unfolding(crate::specs::Arc::arc_width))]
    pub fn width(self) -> u64
        ensures { result ≡ arc_width self }
    {
        whole::width::root_width(self.square)
    }
}
