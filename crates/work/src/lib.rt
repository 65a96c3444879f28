// What is in work: nothing, a line or an arc; its test, and what a working tick does to it.
// The functions take the few numbers that they need and no machine, so that a tick copies little.
#![tactic(auto)]

ghost use Rattle.std.specs.Prelude.{◌≡◌, true, ◌≤◌};
ghost use Rattle.plane.specs.Travel.{inside_of};
ghost use Rattle.plane.specs.computed.Travel.{Wide};
ghost use Rattle.line.specs.computed.Line.{line_at};
ghost use Rattle.arc.specs.computed.Arc.{StandsOnArc};
ghost use Rattle.divider.specs.Divider.{fed_of};
ghost use Rattle.plane.specs.Byte.{cycle_byte};
ghost use Rattle.work.specs.Work.{is_nothing, feed_of, added_of};
ghost use Rattle.work.specs.computed.Work.{line_sound, arc_sound, work_sound, line_cycle, arc_cycle, cycle_of, charge_of, due_of};
ghost use Rattle.work.specs.computed.Work.{cycle_with, advance_of};
ghost use Rattle.work.specs.Work.{begun_of};
ghost use Rattle.work.specs.computed.Asked.{Cycling, Ready, Loadable};

use arc::arc::Arc;
use block::questions::{arc_of, feed_right};
use block::{Block, Path};
use circle::step::STRAIGHT;
use divider::{FEED_SCALE, Fed, add_feed};
use line::line::Line;
use plane::byte::cycle_byte;
use plane::point::Point;
use plane::pulse::Pulses;
use plane::travel::{Travel, inside};

pub mod rest;

#[derive(Clone, Copy)]
pub enum Work {
    Nothing,
    Line(Line),
    Arc(Arc),
}

// What a cycle gives: the point, the tick byte, and what is in work after it.
#[derive(Drop)]
pub struct Cycle {
    pub at: Point,
    pub byte: u8,
    pub work: Work,
}

// What a working tick gives.
#[derive(Drop)]
pub struct Advance {
    pub at: Point,
    pub remainder: u64,
    pub byte: u8,
    pub work: Work,
}

pub fn is_nothing(work: Work) -> bool
    ensures { result ≡ is_nothing work }
{
    matches!(work, Work::Nothing)
}

// ---- the test of what is in work, for any numbers; the point and the travel have been tested

#[tactic(auto, using(crate::specs::laws::Sound::line_tests))]
fn line_sound(capacity: u64, travel: Travel, at: Point, l: Line) -> bool
    ensures { result ≡ line_sound capacity travel at l }
{
    inside(travel, l.start) && inside(travel, l.end) && feed_right(capacity, l.feed) && l.is_at(at)
}

#[tactic(auto, unfolding(crate::specs::computed::Work::arc_sound))]
fn arc_sound(capacity: u64, travel: Travel, at: Point, a: Arc) -> bool
    requires { Wide travel × (inside_of travel at ≡ true) }
    ensures { result ≡ arc_sound capacity travel at a }
{
    feed_right(capacity, a.feed) && a.is_at(travel, at)
}

#[tactic(auto, unfolding(crate::specs::computed::Work::work_sound))]
pub fn work_sound(capacity: u64, travel: Travel, at: Point, work: Work) -> bool
    requires { Wide travel × (inside_of travel at ≡ true) }
    ensures { result ≡ work_sound capacity travel at work }
{
    match work {
        Work::Nothing => true,
        Work::Line(l) => line_sound(capacity, travel, at, l),
        Work::Arc(a) => arc_sound(capacity, travel, at, a),
    }
}

// ---- a cycle

impl Cycle {
    // The cycle that these pulses do, after which this is in work unless the block has ended.
    fn after(at: Point, pulses: Pulses, ended: bool, work: Work) -> Cycle
        requires { (pulses.x ≤ 2) × (pulses.y ≤ 2) }
        ensures { result ≡ cycle_with at (cycle_byte pulses ended) ended work }
    {
        Cycle {
            at,
            byte: cycle_byte(pulses, ended),
            work: if ended { Work::Nothing } else { work },
        }
    }
}

#[tactic(auto, using(crate::specs::laws::Cycle::line_codes))]
fn line_cycle(at: Point, l: Line) -> Cycle
    requires { line_at l at ≡ true }
    ensures { result ≡ line_cycle l }
{
    let step = l.step(at);
    let ended = step.line.done == l.cycles;
    Cycle::after(step.at, step.pulses, ended, Work::Line(step.line))
}

#[tactic(auto, using(crate::specs::laws::Cycle::arc_codes))]
fn arc_cycle(at: Point, a: Arc) -> Cycle
    requires { StandsOnArc a at }
    ensures { result ≡ arc_cycle at a }
{
    let step = a.step(at);
    Cycle::after(step.at, step.pulses, step.at == a.end, Work::Arc(a))
}

// The cycle of what is in work; callers ask first whether there is something.
#[tactic(auto, unfolding(crate::specs::computed::Work::cycle_of))]
fn work_cycle(at: Point, work: Work) -> Cycle
    requires { Cycling at work }
    ensures { result ≡ cycle_of at work }
{
    match work {
        Work::Nothing => unreachable!(),
        Work::Line(l) => line_cycle(at, l),
        Work::Arc(a) => arc_cycle(at, a),
    }
}

// ---- a working tick

fn feed_number(work: Work) -> u64
    ensures { result ≡ feed_of work }
{
    match work {
        Work::Nothing => 0,
        Work::Line(l) => l.feed,
        Work::Arc(a) => a.feed,
    }
}

// What the next cycle is charged.
fn charge(at: Point, work: Work) -> u64
    requires { Cycling at work }
    ensures { result ≡ charge_of at work }
{
    match work {
        Work::Nothing | Work::Line(_) => STRAIGHT,
        Work::Arc(a) => a.charge(at),
    }
}

// The divider's tick: the remainder after it, and whether a cycle is due.
#[tactic(auto, using(crate::specs::laws::Charge::fed_low, crate::specs::laws::Charge::due_range))]
fn feed(capacity: u64, at: Point, remainder: u64, work: Work) -> Fed
    requires { Ready at remainder work × (capacity ≤ 1200000000) }
    ensures { result ≡ fed_of (due_of capacity at work) (added_of work) remainder }
{
    let added = FEED_SCALE * feed_number(work);
    let sum = remainder + added;
    // No cycle is charged less, so most ticks need not look at the next one.
    if sum < STRAIGHT * capacity {
        return Fed {
            remainder: sum,
            cycle: false,
        };
    }
    add_feed(charge(at, work) * capacity, added, remainder)
}

// One working tick of what is in work; callers ask first whether there is something.
pub fn work_tick(capacity: u64, at: Point, remainder: u64, work: Work) -> Advance
    requires { Ready at remainder work × (capacity ≤ 1200000000) }
    ensures { result ≡ advance_of capacity at remainder work }
{
    let fed = feed(capacity, at, remainder, work);
    if fed.cycle {
        let cycle = work_cycle(at, work);
        return Advance {
            at: cycle.at,
            remainder: fed.remainder,
            byte: cycle.byte,
            work: cycle.work,
        };
    }
    Advance {
        at,
        remainder: fed.remainder,
        byte: 0,
        work,
    }
}

// ---- a block comes into work

// What a block newly in work is, and the register width that its load answers.
#[derive(Drop)]
pub struct Begun {
    pub work: Work,
    pub width: u64,
}

#[tactic(auto, unfolding(crate::specs::Work::begun_of, block::specs::Block::block_width))]
pub fn begin(start: Point, b: Block) -> Begun
    requires { Loadable start b b.path }
    ensures { result ≡ begun_of start b }
{
    match b.path {
        Path::Line => {
            let l = Line::new(start, b.end, b.feed);
            Begun {
                work: Work::Line(l),
                width: l.width(),
            }
        }
        Path::Arc(turn, centre) => {
            let a = arc_of(start, b, turn, centre);
            Begun {
                work: Work::Arc(a),
                width: a.width(),
            }
        }
    }
}
