// The way from one circle point to another, without walking it: its cycles, and what they are charged.
ghost use Rattle.std.specs.Prelude.{◌≡◌, true, ◌≤◌};
ghost use Rattle.whole.specs.Root.{nearest_root};
ghost use Rattle.circle.specs.Circle.{on_circle};
ghost use Rattle.circle.specs.computed.Step.{seen_place};
ghost use Rattle.circle.specs.Circle.{quarter_of};
ghost use Rattle.charges.specs.computed.Sum.{quadrant_charges_of, span_to, span_of};
ghost use Rattle.charges.specs.computed.Asked.{Tolled};

use crate::Span;
use circle::count::{rank, way_on};
use circle::plane::{Offset, Turn, seen_from};
use circle::quadrant::{Place, place_of};
use whole::root::nearest_root;

// The charges of a quadrant, 586 for each cycle and 414 for each pulse: its pulses are twice the radius.
pub fn quadrant_charges(quarter: u64, radius: u64) -> u64
    requires { (quarter ≤ 2000000) × (radius ≤ 1414214) }
    ensures { result ≡ quadrant_charges_of quarter radius }
{
    586 * quarter + 828 * radius
}

// The way from the X axis on to a place: its rank, and the charges, 586 for each cycle and 414 for each pulse.
pub fn span_to(quarter: u64, radius: u64, q: Place) -> Span
    requires { Tolled quarter radius q }
    ensures { result ≡ span_to quarter radius q }
{
    let cycles = rank(quarter, q);
    let pulses = q.quadrant * (2 * radius) + (radius + q.across - q.along);
    let charges = 586 * cycles + 414 * pulses;
    Span { cycles, charges }
}

// The same to a circle point, seen the way round that it goes.
fn seen_span(n: u64, quarter: u64, radius: u64, turn: Turn, p: Offset) -> Span
    requires { (on_circle n p ≡ true) × (quarter ≡ quarter_of n) × (radius ≡ nearest_root n) }
    ensures { result ≡ span_to quarter radius (seen_place turn p) }
{
    span_to(quarter, radius, place_of(seen_from(turn, p)))
}

// The way from p on to e: 1 cycle or more, and for p equal to e a full turn.
pub fn span(n: u64, turn: Turn, p: Offset, e: Offset) -> Span
    requires { (on_circle n p ≡ true) × (on_circle n e ≡ true) }
    ensures { result ≡ span_of n turn p e }
{
    let quarter = nearest_root(2 * n);
    let radius = nearest_root(n);
    let from = seen_span(n, quarter, radius, turn, p);
    let to = seen_span(n, quarter, radius, turn, e);
    Span {
        cycles: way_on(4 * quarter, from.cycles, to.cycles),
        charges: way_on(
            4 * quadrant_charges(quarter, radius),
            from.charges,
            to.charges,
        ),
    }
}
