// Travel: the positions that an axis may take. A range of our own, since the library's `RangeInclusive` is no `Copy`.
ghost use Rattle.std.specs.Prelude.{◌≡◌};
ghost use Rattle.plane.specs.Travel.{within_of, inside_of};

use crate::point::Point;

#[derive(Clone, Copy)]
pub struct Range {
    pub lower: i64,
    pub upper: i64,
}

#[derive(Clone, Copy)]
pub struct Travel {
    pub x: Range,
    pub y: Range,
}

#[tactic(auto, unfolding(crate::specs::Travel::within_of))]
pub fn within(range: Range, at: i64) -> bool
    ensures { result ≡ within_of range at }
{
    (range.lower..=range.upper).contains(&at)
}

#[tactic(auto, unfolding(crate::specs::Travel::inside_of))]
pub fn inside(travel: Travel, at: Point) -> bool
    ensures { result ≡ inside_of travel at }
{
    within(travel.x, at.x) && within(travel.y, at.y)
}
