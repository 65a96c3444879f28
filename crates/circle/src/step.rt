// The step to the next point, and the stepper that carries what the next step needs.
ghost use Rattle.std.specs.Prelude.{◌≡◌, true, ◌<◌};
ghost use Rattle.circle.specs.Circle.{on_circle};
ghost use Rattle.circle.specs.computed.Step.{next_quadrant, step_of};
ghost use Rattle.circle.specs.computed.Stepper.{Entered, enter_of, move_of, moved, brought_on, advanced_by, cycled_of, leave_of};
ghost use Rattle.circle.specs.computed.Charge.{move_charge, step_charge};
ghost use Rattle.circle.specs.computed.Asked.{Movable};

use crate::plane::{Offset, Turn, seen_from};
use crate::quadrant::{Place, place_of, point_of};

const BIAS: u64 = 2_000_000;

// What a step is charged.
pub const STRAIGHT: u64 = 1_000;

pub const DIAGONAL: u64 = 1_414;

// What a step does in its quadrant: across grows, or along falls and across grows, or along falls.
#[derive(Clone, Copy)]
pub enum Move {
    Rise,
    Slant,
    Fall,
}

// A point in quadrant form with its excess, for long runs: a cycle costs a few additions and comparisons, and no product.
#[derive(Clone, Copy)]
pub struct Stepper {
    pub turn: Turn,
    // 0..3, for clockwise in the mirror
    pub quadrant: u64,
    // 1..1,414,214
    pub along: u64,
    // 0..1,414,214
    pub across: u64,
    // along² + across² - n + BIAS, which is never negative
    pub excess: u64,
}

// What a cycle gives: the stepper after it, and the move that it made.
#[derive(Drop)]
pub struct Cycled {
    pub stepper: Stepper,
    pub made: Move,
}

// A move that takes both axes is diagonal.
pub fn move_charge(m: Move) -> u64
    ensures { result ≡ move_charge m }
{
    match m {
        Move::Rise => STRAIGHT,
        Move::Slant => DIAGONAL,
        Move::Fall => STRAIGHT,
    }
}

pub fn next_quadrant(k: u64) -> u64
    requires { k < 4 }
    ensures { result ≡ next_quadrant k }
{
    if k == 3 { 0 } else { k + 1 }
}

impl Stepper {
    // The two products are here.
    pub fn enter(n: u64, turn: Turn, p: Offset) -> Stepper
        requires { on_circle n p ≡ true }
        ensures { result ≡ enter_of n turn p }
    {
        let q = place_of(seen_from(turn, p));
        let squares = q.along * q.along + q.across * q.across;
        Stepper {
            turn,
            quadrant: q.quadrant,
            along: q.along,
            across: q.across,
            excess: squares + BIAS - n,
        }
    }

    // What the next cycle does.
    pub fn next_move(self) -> Move
        requires { Entered self }
        ensures { result ≡ move_of self }
    {
        if self.across < self.along {
            if self.excess + 2 * self.across + 1 < BIAS + self.along {
                return Move::Rise;
            }
            return Move::Slant;
        }
        if BIAS + 2 * self.along <= self.excess + self.across + 1 {
            return Move::Fall;
        }
        Move::Slant
    }

    // The point after the move, before an axis is written in its own quadrant.
    fn moved_by(self, m: Move) -> Stepper
        requires { Movable m self }
        ensures { result ≡ moved m self }
    {
        match m {
            Move::Rise => Stepper {
                across: self.across + 1,
                excess: self.excess + 2 * self.across + 1,
                ..self
            },
            Move::Slant => Stepper {
                along: self.along - 1,
                across: self.across + 1,
                excess: self.excess + 2 * self.across + 2 - 2 * self.along,
                ..self
            },
            Move::Fall => Stepper {
                along: self.along - 1,
                excess: self.excess + 1 - 2 * self.along,
                ..self
            },
        }
    }

    // An axis belongs to the quadrant that it begins.
    fn settle(self) -> Stepper
        requires { self.quadrant < 4 }
        ensures { result ≡ brought_on self }
    {
        if self.along == 0 {
            return Stepper {
                quadrant: next_quadrant(self.quadrant),
                along: self.across,
                across: 0,
                ..self
            };
        }
        self
    }

    // The stepper after its next move, for callers that know it.
    pub fn advance(self, m: Move) -> Stepper
        requires { Entered self × (m ≡ move_of self) }
        ensures { result ≡ advanced_by self }
    {
        self.moved_by(m).settle()
    }

    // One cycle onward. The move gives its pulses, without leaving quadrant form.
    pub fn cycle(self) -> Cycled
        requires { Entered self }
        ensures { result ≡ cycled_of self }
    {
        let made = self.next_move();
        Cycled {
            stepper: self.advance(made),
            made,
        }
    }

    pub fn leave(self) -> Offset
        requires { Entered self }
        ensures { result ≡ leave_of self }
    {
        let p = point_of(Place {
            quadrant: self.quadrant,
            along: self.along,
            across: self.across,
        });
        seen_from(self.turn, p)
    }
}

// The next point.
pub fn step(n: u64, turn: Turn, p: Offset) -> Offset
    requires { on_circle n p ≡ true }
    ensures { result ≡ step_of n turn p }
{
    Stepper::enter(n, turn, p).cycle().stepper.leave()
}

// What the step to the next point is charged.
pub fn charge(n: u64, turn: Turn, p: Offset) -> u64
    requires { on_circle n p ≡ true }
    ensures { result ≡ step_charge n turn p }
{
    move_charge(Stepper::enter(n, turn, p).next_move())
}
