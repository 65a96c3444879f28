// A position, and the way from one to another.
ghost use Rattle.std.specs.Prelude.{◌≡◌};
ghost use Rattle.plane.specs.computed.Point.{increments_of};

use whole::sign::SignMagnitude;

#[derive(Clone, Copy, PartialEq, Eq)]
pub struct Point {
    pub x: i64,
    pub y: i64,
}

// The way from one point to another, axis by axis.
#[derive(Drop)]
pub struct Increments {
    pub x: SignMagnitude,
    pub y: SignMagnitude,
}

// Exact for every two points.
pub fn between(from: Point, to: Point) -> Increments
    ensures { result ≡ increments_of from to }
{
    Increments {
        x: whole::sign::difference(from.x, to.x),
        y: whole::sign::difference(from.y, to.y),
    }
}
