// Whether an arc stays inside travel, without walking it.
#![tactic(auto)]

ghost use Rattle.std.specs.Prelude.{◌≡◌, true, false, ◌≤◌, ◌<◌, ◌^◌, nat_abs};
ghost use Rattle.circle.specs.declared.plane.Offset.{Offset};
ghost use Rattle.circle.specs.Circle.{Circle, largest_n, on_circle};
ghost use Rattle.clearance.specs.computed.Inside.{Inside};
ghost use Rattle.clearance.specs.computed.Travel.{below_test, inside_test, seen_room, way_inside, stays_inside};
ghost use Rattle.clearance.specs.computed.Travel.{reaches, axes_passed, axis_test, axes_test, smaller_of};
ghost use Rattle.clearance.specs.computed.Asked.{Crossing};

use circle::count::way_on;
use circle::plane::{Offset, Turn, seen_from};
use circle::quadrant::{Place, place_of, turned_by};

// How far travel reaches from the centre on each side; negative where the centre is outside.
#[derive(Clone, Copy)]
pub struct Room {
    pub right: i64,
    pub up: i64,
    pub left: i64,
    pub down: i64,
}

// The room as the mirror shows it to clockwise.
fn room_from(turn: Turn, room: Room) -> Room
    ensures { result ≡ seen_room turn room }
{
    match turn {
        Turn::Clockwise => Room {
            right: room.right,
            up: room.down,
            left: room.left,
            down: room.up,
        },
        Turn::Counterclockwise => room,
    }
}

// Whether p is at most the corner in both coordinates.
#[tactic(auto, unfolding(crate::specs::computed::Travel::below_test))]
fn below(p: Offset, corner: Offset) -> bool
    ensures { result ≡ below_test p corner }
{
    p.x <= corner.x && p.y <= corner.y
}

// Whether a point is inside, whatever the room: p is below the upper corner, and its opposite below that of the lower one.
#[tactic(auto, unfolding(crate::specs::computed::Travel::inside_test))]
fn inside(room: Room, p: Offset) -> bool
    requires { (nat_abs p.x < 2 ^ 63) × (nat_abs p.y < 2 ^ 63) }
    ensures { result ≡ inside_test room p }
{
    let upper = Offset {
        x: room.right,
        y: room.up,
    };
    let lower = Offset {
        x: room.left,
        y: room.down,
    };
    below(p, upper) && below(turned_by(2, p), lower)
}

// Whether travel reaches the circle's point on an axis, the nearest root of n, with the room e on that side.
// No root is needed, for that is n <= e * e + e; and a room of 2,000,000 passes without a product.
#[tactic(auto, using(crate::specs::laws::Code::reaching))]
fn reaches_axis(n: u64, e: i64) -> bool
    requires { n ≤ largest_n }
    ensures { result ≡ reaches n e }
{
    let m = e.unsigned_abs();
    0 <= e && (2_000_000 <= m || n <= m * m + m)
}

// Axis i, counted from the quadrant `from`, is not passed, or travel reaches far enough there.
#[tactic(auto, unfolding(crate::specs::computed::Travel::axis_test))]
fn axis_clear(n: u64, passed: u64, from: u64, i: u64, e: i64) -> bool
    requires { (n ≤ largest_n) × (from < 4) × (i < 4) }
    ensures { result ≡ axis_test n passed from i e }
{
    passed < way_on(4, from, i) || reaches_axis(n, e)
}

#[tactic(auto, unfolding(crate::specs::computed::Travel::axes_test))]
fn axes_clear(room: Room, n: u64, passed: u64, from: u64) -> bool
    requires { (n ≤ largest_n) × (from < 4) }
    ensures { result ≡ axes_test room n passed from }
{
    axis_clear(n, passed, from, 0, room.right)
        && axis_clear(n, passed, from, 1, room.up)
        && axis_clear(n, passed, from, 2, room.left)
        && axis_clear(n, passed, from, 3, room.down)
}

// How many axes the way from p on to e passes or ends on. In one quadrant across - along grows on the way.
#[tactic(auto, unfolding(crate::specs::computed::Travel::axes_passed))]
fn axes_passed(p: Place, e: Place) -> u64
    requires { Crossing p e }
    ensures { result ≡ axes_passed p e }
{
    if e.quadrant == p.quadrant {
        if p.across + e.along < e.across + p.along {
            return 0;
        }
        return 4;
    }
    way_on(4, p.quadrant, e.quadrant)
}

// The counterclockwise way from p on to e, p and e included.
#[tactic(auto, unfolding(crate::specs::computed::Travel::way_inside))]
fn way_inside(room: Room, n: u64, p: Offset, e: Offset) -> bool
    requires { (on_circle n p ≡ true) × (on_circle n e ≡ true) }
    ensures { result ≡ way_inside room n p e }
{
    let from = place_of(p);
    inside(room, p)
        && inside(room, e)
        && axes_clear(room, n, axes_passed(from, place_of(e)), from.quadrant)
}

fn smaller(a: i64, b: i64) -> i64
    ensures { result ≡ smaller_of a b }
{
    a.min(b)
}

// Whether the least of the four sides reaches the circle: then every circle point is inside.
fn surrounds(room: Room, n: u64) -> bool
    requires { n ≤ largest_n }
    ensures { result ≡ true → (p : Offset) → Circle n p → Inside room p }
{
    let x = smaller(room.right, room.left);
    let y = smaller(room.up, room.down);
    reaches_axis(n, smaller(x, y))
}

// Whether p and every point still to visit on the way to e are inside, for any room.
// Most arcs are far from the edge of the travel, and for these one product tells. The long test is called in two places, so that it stays
// out of line and this one is short enough to stand where it is asked.
pub fn stays_inside(room: Room, n: u64, turn: Turn, p: Offset, e: Offset) -> bool
    requires { (on_circle n p ≡ true) × (on_circle n e ≡ true) }
    ensures { result ≡ stays_inside room n turn p e }
{
    if surrounds(room, n) {
        return true;
    }
    match turn {
        Turn::Clockwise => {
            let seen_room = room_from(turn, room);
            let from = seen_from(turn, p);
            let to = seen_from(turn, e);
            way_inside(seen_room, n, from, to)
        }
        Turn::Counterclockwise => way_inside(room, n, p, e),
    }
}
