// So many cycles on from a point, without walking there: one root for the points of a quarter, one for the radius, and one for each place.
ghost use Rattle.std.specs.Prelude.{◌≡◌, true, ◌*◌, ◌≤◌};
ghost use Rattle.circle.specs.Circle.{largest_n, on_circle};
ghost use Rattle.circle.specs.Circle.{quarter_of};
ghost use Rattle.charges.specs.computed.Jump.{place_in, place_at, jump_start, arrived_of};
ghost use Rattle.charges.specs.computed.Asked.{Placed, Started};

use crate::Span;
use crate::sum::{quadrant_charges, span_to};
use circle::count::way_on;
use circle::plane::{Offset, Turn, seen_from};
use circle::quadrant::{Place, place_of};
use whole::root::nearest_root;

// A circle with its roots, each taken once, and the point from which cycles are counted.
#[derive(Clone, Copy)]
pub struct Start {
    pub n: u64,
    pub turn: Turn,
    pub at: Offset,
    // The points of a quarter turn.
    pub quarter: u64,
    pub radius: u64,
    // The point in quadrant form, as it is seen, and the way from the X axis on to it.
    pub place: Place,
    pub from: Span,
}

// So many cycles, their charges, and the place after them.
#[derive(Clone, Copy)]
pub struct Arrived {
    pub cycles: u64,
    pub charges: u64,
    pub place: Place,
}

// The place of rank i in a quadrant: to the diagonal i counts across, from there on what is left of the quarter counts along.
fn place_in(n: u64, quarter: u64, quadrant: u64, i: u64) -> Place
    requires { Placed n quarter i }
    ensures { result ≡ place_in n quarter quadrant i }
{
    if 2 * i <= quarter {
        return Place {
            quadrant: quadrant,
            along: nearest_root(n - i * i),
            across: i,
        };
    }
    let along = quarter - i;
    Place {
        quadrant: quadrant,
        along: along,
        across: nearest_root(n - along * along),
    }
}

// The place of a rank, round and round.
fn place_at(n: u64, quarter: u64, rank: u64) -> Place
    requires { (1 ≤ n) × (n ≤ largest_n) × (quarter ≡ quarter_of n) }
    ensures { result ≡ place_at n quarter rank }
{
    place_in(n, quarter, rank / quarter % 4, rank % quarter)
}

impl Start {
    pub fn enter(n: u64, turn: Turn, p: Offset) -> Start
        requires { on_circle n p ≡ true }
        ensures { result ≡ jump_start n turn p }
    {
        let quarter = nearest_root(2 * n);
        let radius = nearest_root(n);
        let place = place_of(seen_from(turn, p));
        Start {
            n,
            turn,
            at: p,
            quarter,
            radius,
            place,
            from: span_to(quarter, radius, place),
        }
    }

    // Where so many cycles lead, from 1 to those of a full turn.
    pub fn after(self, cycles: u64) -> Arrived
        requires { Started self × (1 ≤ cycles) × (cycles ≤ 4 * self.quarter) }
        ensures { result ≡ arrived_of self cycles }
    {
        let from = self.from;
        let place = place_at(self.n, self.quarter, from.cycles + cycles);
        let to = span_to(self.quarter, self.radius, place);
        let round = 4 * quadrant_charges(self.quarter, self.radius);
        let charges = way_on(round, from.charges, to.charges);
        Arrived {
            cycles,
            charges,
            place,
        }
    }
}
