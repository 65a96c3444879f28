// The cycles that a sum of charges pays for, without walking them: a guess, and a search from there. It takes the two roots of the circle,
// one for the guess, and one for each number of cycles that is tried. The guess was off by one at most wherever it was measured, so one
// number or two are tried; whatever the guess, 44 at most.
ghost use Rattle.std.specs.Prelude.{◌≡◌, true, ◌+◌, ◌-◌, ◌*◌, ◌/◌, ◌≤◌, ◌<◌, min};
ghost use Rattle.circle.specs.Circle.{largest_n, on_circle};
ghost use Rattle.circle.specs.Circle.{quarter_of};
ghost use Rattle.charges.specs.Paid.{most_paid};
ghost use Rattle.charges.specs.computed.Paid.{paid_of};
ghost use Rattle.charges.specs.computed.Jump.{charges_on, arrived_of};
ghost use Rattle.charges.specs.computed.Asked.{Started};

use crate::Paid;
use crate::jump::{Arrived, Start};
use crate::sum::quadrant_charges;
use circle::plane::{Offset, Turn, seen_from};
use circle::quadrant::point_of;
use circle::step::STRAIGHT;
use whole::root::nearest_root;

// About how far across a place before the diagonal lies, by its toll. A place b across and a along has the toll m = 1,000 b + 414 (R - a),
// where a * a + b * b is about n. With d = m - 414 R that is a quadratic equation: 1,171,396 b = 1,000 d + 414 √(1,171,396 n - d * d).
// The root is taken of a 512 * 512th, which is small enough for a quick one. Nothing is claimed of the number but its size.
fn across_near(n: u64, radius: u64, toll: u64) -> u64
    requires { (n ≤ largest_n) × (radius ≤ 1414214) × (toll ≤ 2400000000) }
    ensures { result ≤ 10000000 }
{
    let middle = 414 * radius;
    let d = toll.abs_diff(middle);
    let root = nearest_root((1_171_396 * n).saturating_sub(d * d) / 262_144);
    (1_000 * toll + 211_968 * root).saturating_sub(1_000 * middle) / 1_171_396
}

// About the rank that has this toll, of which nothing is claimed but its size. Past the diagonal it is found from the quadrant's other end.
fn rank_near(n: u64, quarter: u64, radius: u64, toll: u64) -> u64
    requires { (n ≤ largest_n) × (1 ≤ quarter) × (quarter ≤ 2000000) × (radius ≤ 1414214) × (toll ≤ 20000000000) }
    ensures { result ≤ 50000000000000000 }
{
    let quadrant = quadrant_charges(quarter, radius);
    let before = toll / quadrant * quarter;
    let rest = toll % quadrant;
    if 2 * rest <= quadrant {
        return before + across_near(n, radius, rest);
    }
    (before + quarter).saturating_sub(across_near(n, radius, quadrant - rest) + 1)
}

// About how many cycles the sum pays, 1 or more: the search tries it, and nothing else is claimed of it.
fn cycles_near(s: Start, sum: u64) -> u64
    requires { Started s }
    ensures { 1 ≤ result }
{
    let round = 4 * quadrant_charges(s.quarter, s.radius);
    let rank = rank_near(s.n, s.quarter, s.radius, s.from.charges + sum.min(round));
    rank.saturating_sub(s.from.cycles + 1) + 1
}

// How many cycles are too many where some are paid and so much is left: each more is charged 1,000 at least.
fn too_many(most: u64, cycles: u64, rest: u64) -> u64
    requires { cycles ≤ 8000000 }
    ensures { result ≡ min most (cycles + rest / 1000 + 1) }
{
    most.min(cycles + rest / STRAIGHT + 1)
}

// How far to go from the last number tried to the next: 1, 3, 7 and so on, but no further than half of what is left.
fn stride(last: u64, left: u64) -> u64
    requires { last ≤ 8000000 }
    ensures { result ≡ min (2 * last + 1) (left / 2) }
{
    (2 * last + 1).min(left / 2)
}

// The most cycles that the sum pays: `low` are paid, `high` are not, or are more than are asked, and `next` lies between.
fn search(s: Start, most: u64, sum: u64) -> Arrived
    requires { Started s × (most < 4 * s.quarter) }
    ensures { result ≡ arrived_of s (most_paid (charges_on s) sum most) }
{
    let mut low = Arrived {
        cycles: 0,
        charges: 0,
        place: s.place,
    };
    let mut high = too_many(most + 1, 0, sum);
    let mut next = cycles_near(s, sum).min(high - 1);
    let mut step = 0;
    while low.cycles + 1 < high {
        let r = s.after(next);
        if r.charges <= sum {
            low = r;
            high = too_many(high, next, sum - r.charges);
            step = stride(step, high - next);
            next = next + step;
        } else {
            high = next;
            step = stride(step, next - low.cycles);
            next = next - step;
        }
    }
    low
}

// The most cycles from p on, at most so many, whose charges the sum holds.
pub fn paid(n: u64, turn: Turn, p: Offset, most: u64, sum: u64) -> Paid<Offset>
    requires { (on_circle n p ≡ true) × (most < 4 * quarter_of n) }
    ensures { result ≡ paid_of n turn p most sum }
{
    let r = search(Start::enter(n, turn, p), most, sum);
    Paid {
        cycles: r.cycles,
        charges: r.charges,
        at: seen_from(turn, point_of(r.place)),
    }
}
