// Load's questions in document 01's order. Each function answers the first question that is answered by no, where one is.
ghost use Rattle.std.specs.Prelude.{◌≡◌, true};
ghost use Rattle.plane.specs.Travel.{inside_of};
ghost use Rattle.plane.specs.Point.{Near};
ghost use Rattle.plane.specs.computed.Travel.{Wide};
ghost use Rattle.block.specs.Block.{square_of, arc_of};
ghost use Rattle.block.specs.computed.Questions.{Begins};
ghost use Rattle.block.specs.Questions.{feed_right, offset_right, ask_arc, ask_path, ask_load};

use crate::{Block, Path};
use arc::arc::Arc;
use arc::centre::back;
use circle::plane::{Offset, Turn};
use plane::point::Point;
use plane::travel::{Travel, inside};
use question::Question;

pub fn feed_right(capacity: u64, feed: u64) -> bool
    ensures { result ≡ feed_right capacity feed }
{
    (1..=capacity).contains(&feed)
}

// Question 14, for any I and J.
fn offset_right(o: Offset) -> bool
    ensures { result ≡ offset_right o }
{
    let x = o.x.unsigned_abs();
    let y = o.y.unsigned_abs();
    x <= 1_000_000 && y <= 1_000_000 && (x != 0 || y != 0)
}

// An arc's N, from its centre seen from the start.
#[tactic(auto, using(whole::specs::laws::Squares::square_le, crate::proofs::laws::Begin::offset_right_lem))]
pub fn square(o: Offset) -> u64
    requires { offset_right o ≡ true }
    ensures { result ≡ square_of o }
{
    let x = o.x.unsigned_abs();
    let y = o.y.unsigned_abs();
    x * x + y * y
}

// The arc that a block makes from its start.
#[tactic(auto, using(crate::proofs::laws::Begin::offset_right_lem), unfolding(crate::specs::Block::arc_of))]
pub fn arc_of(start: Point, b: Block, turn: Turn, centre: Offset) -> Arc
    requires { Near 1000000 start × (offset_right centre ≡ true) }
    ensures { result ≡ arc_of start b turn centre }
{
    Arc {
        centre: back(start, centre),
        square: square(centre),
        turn,
        end: b.end,
        feed: b.feed,
    }
}

// Questions 15 and 16 of an arc that begins here.
fn ask_arc(travel: Travel, start: Point, a: Arc) -> Result<(), Question>
    requires { Begins travel start a }
    ensures { result ≡ ask_arc travel a start }
{
    if !a.ends_on_circle() {
        return Err(Question::EndOnCircle);
    }
    if !a.stays(travel, start) {
        return Err(Question::VisitsInTravel);
    }
    Ok(())
}

// Questions 13 to 16.
#[tactic(auto, using(plane::specs::laws::Travel::inside, plane::specs::laws::Travel::travel_near), unfolding(line::specs::Line::differ))]
fn ask_path(travel: Travel, start: Point, b: Block) -> Result<(), Question>
    requires { Wide travel × (inside_of travel start ≡ true) × (inside_of travel b.end ≡ true) }
    ensures { result ≡ ask_path travel start b b.path }
{
    match b.path {
        Path::Line => {
            if start == b.end {
                return Err(Question::Moves);
            }
            Ok(())
        }
        Path::Arc(turn, centre) => {
            if !offset_right(centre) {
                return Err(Question::Centre);
            }
            ask_arc(travel, start, arc_of(start, b, turn, centre))
        }
    }
}

// Questions 10 to 16.
#[tactic(auto, unfolding(crate::specs::Questions::ask_load))]
pub fn ask_load(
    capacity: u64,
    travel: Travel,
    room: bool,
    start: Point,
    b: Block,
) -> Result<(), Question>
    requires { Wide travel × (inside_of travel start ≡ true) }
    ensures { result ≡ ask_load capacity travel room start b }
{
    if !room {
        return Err(Question::Room);
    }
    if !feed_right(capacity, b.feed) {
        return Err(Question::Feed);
    }
    if !inside(travel, b.end) {
        return Err(Question::EndInTravel);
    }
    ask_path(travel, start, b)
}
