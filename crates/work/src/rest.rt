// What is left of the block in work, without walking to its end.
ghost use Rattle.std.specs.Prelude.{◌≡◌};
ghost use Rattle.work.specs.Work.{cycles_left, end_of};
ghost use Rattle.work.specs.computed.Rest.{Countable, left_of, Rooted};
ghost use Rattle.work.specs.Work.{root_in};

use crate::Work;
use circle::step::STRAIGHT;
use plane::point::Point;
use whole::root::nearest_root;

// What the end of the block in work depends on.
#[derive(Drop)]
pub struct Left {
    pub cycles: u64,
    // The sum of what these cycles are charged.
    pub charges: u64,
    pub feed: u64,
    pub end: Point,
}

pub fn work_left(at: Point, work: Work) -> Left
    requires { Countable at work }
    ensures { result ≡ left_of at work }
{
    match work {
        Work::Nothing => Left {
            cycles: 0,
            charges: 0,
            feed: 0,
            end: at,
        },
        Work::Line(l) => {
            let cycles = l.cycles - l.done;
            Left {
                cycles,
                charges: STRAIGHT * cycles,
                feed: l.feed,
                end: l.end,
            }
        }
        Work::Arc(a) => {
            let span = a.span(at);
            Left {
                cycles: span.cycles,
                charges: span.charges,
                feed: a.feed,
                end: a.end,
            }
        }
    }
}

// The root by which the cycles left are known: q of a line, the cycles of a quarter turn of an arc, 0 of nothing.
pub fn root_of(work: Work) -> u64
    requires { Rooted work }
    ensures { result ≡ root_in work }
{
    match work {
        Work::Nothing => 0,
        Work::Line(l) => l.cycles,
        Work::Arc(a) => nearest_root(2 * a.square),
    }
}

// The cycles left, from the root.
pub fn cycles_left(at: Point, work: Work, root: u64) -> u64
    requires { Countable at work × (root ≡ root_in work) }
    ensures { result ≡ cycles_left at work }
{
    match work {
        Work::Nothing => 0,
        Work::Line(l) => l.cycles - l.done,
        Work::Arc(a) => a.cycles(root, at),
    }
}

// Where what is in work ends; of nothing the point.
pub fn end_of(at: Point, work: Work) -> Point
    ensures { result ≡ end_of at work }
{
    match work {
        Work::Nothing => at,
        Work::Line(l) => l.end,
        Work::Arc(a) => a.end,
    }
}
