// The quadrant form of a point: the rules are written for the first quadrant and turned into the others.
ghost use Rattle.std.specs.Prelude.{◌≡◌, ◌<◌, ◌^◌, nat_abs};
ghost use Rattle.circle.specs.computed.Step.{turned, place_of, point_at};

use crate::plane::Offset;
use whole::sign::part;

// The point (along, across) of the first quadrant after so many quarter turns counterclockwise.
// A circle point has quadrant 0..3 and along at least 1, and then this form is its only one.
#[derive(Clone, Copy)]
pub struct Place {
    // A number and no enum: `rank_of` multiplies by it, and `turned` counts quarter turns by it.
    pub quadrant: u64,
    pub along: u64,
    pub across: u64,
}

pub fn place_of(p: Offset) -> Place
    ensures { result ≡ place_of p.x p.y }
{
    let x = part(p.x);
    let y = part(p.y);
    if y.negative {
        if x.negative {
            return Place {
                quadrant: 2,
                along: x.magnitude,
                across: y.magnitude,
            };
        }
        return Place {
            quadrant: 3,
            along: y.magnitude,
            across: x.magnitude,
        };
    }
    if x.negative {
        if y.magnitude == 0 {
            return Place {
                quadrant: 2,
                along: x.magnitude,
                across: 0,
            };
        }
        return Place {
            quadrant: 1,
            along: y.magnitude,
            across: x.magnitude,
        };
    }
    if x.magnitude == 0 {
        return Place {
            quadrant: 1,
            along: y.magnitude,
            across: 0,
        };
    }
    Place {
        quadrant: 0,
        along: x.magnitude,
        across: y.magnitude,
    }
}

// The point after k quarter turns counterclockwise. The least i64 has no opposite.
pub fn turned_by(k: u64, p: Offset) -> Offset
    requires { (k < 4) × (nat_abs p.x < 2 ^ 63) × (nat_abs p.y < 2 ^ 63) }
    ensures { result ≡ turned k p }
{
    match k {
        0 => p,
        1 => Offset { x: -p.y, y: p.x },
        2 => Offset { x: -p.x, y: -p.y },
        _ => Offset { x: p.y, y: -p.x },
    }
}

pub fn point_of(q: Place) -> Offset
    requires { (q.quadrant < 4) × (q.along < 2 ^ 63) × (q.across < 2 ^ 63) }
    ensures { result ≡ point_at q }
{
    turned_by(
        q.quadrant,
        Offset {
            x: q.along as i64,
            y: q.across as i64,
        },
    )
}
