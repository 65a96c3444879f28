// Positions and travel seen from a centre, and back.
ghost use Rattle.std.specs.Prelude.{◌≡◌};
ghost use Rattle.plane.specs.Point.{Near};
ghost use Rattle.plane.specs.computed.Travel.{Wide};
ghost use Rattle.arc.specs.computed.Centre.{Reach, room_of};
ghost use Rattle.arc.specs.Centre.{seen_from, back_from};

use circle::plane::Offset;
use clearance::Room;
use plane::point::Point;
use plane::travel::Travel;

// A point seen from the centre.
pub fn seen(centre: Point, at: Point) -> Offset
    requires { Near 2000000 centre × Near 2000000 at }
    ensures { result ≡ seen_from centre at }
{
    Offset {
        x: at.x - centre.x,
        y: at.y - centre.y,
    }
}

// A point seen from the centre, back on the table.
pub fn back(centre: Point, seen: Offset) -> Point
    requires { Near 2000000 centre × Reach seen }
    ensures { result ≡ back_from centre seen }
{
    Point {
        x: centre.x + seen.x,
        y: centre.y + seen.y,
    }
}

// How far travel reaches from the centre on each side.
pub fn room(travel: Travel, centre: Point) -> Room
    requires { Near 2000000 centre × Wide travel }
    ensures { result ≡ room_of travel centre }
{
    Room {
        right: travel.x.upper - centre.x,
        up: travel.y.upper - centre.y,
        left: centre.x - travel.x.lower,
        down: centre.y - travel.y.lower,
    }
}
