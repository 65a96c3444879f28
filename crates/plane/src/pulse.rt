// Pulses of one cycle, and the position after them.
ghost use Rattle.std.specs.Prelude.{◌≡◌, ◌+ℤ◌};
ghost use Rattle.std.specs.Int.{w64};
ghost use Rattle.std.proofs.Common.{SFits};
ghost use Rattle.plane.specs.Pulse.{pulse_of, code_of, shifted_of, change_of, pulses_between};

use crate::point::Point;

// The codes of a tick byte: 0 none, 1 plus, 2 minus. Numbers and no enum: `both_codes` adds them, an arc's stepper keeps their sums, and
// theorems read them back from a byte (`code_x`, `pulse_of`).
#[derive(Clone, Copy)]
pub struct Pulses {
    pub x: u8,
    pub y: u8,
}

pub fn code(pulse: bool, negative: bool) -> u8
    ensures { result ≡ code_of pulse negative }
{
    if pulse {
        if negative { 2 } else { 1 }
    } else {
        0
    }
}

// One coordinate after the pulse of a code. Its callers show that it stays in range.
fn shifted(at: i64, code: u8) -> i64
    requires { SFits w64 (at +ℤ pulse_of code) }
    ensures { result ≡ at +ℤ pulse_of code }
{
    if code == 1 {
        return at + 1;
    }
    if code == 2 {
        return at - 1;
    }
    at
}

// The position after the pulses of a cycle.
pub fn pulsed(at: Point, pulses: Pulses) -> Point
    requires { SFits w64 (at.x +ℤ pulse_of pulses.x) × SFits w64 (at.y +ℤ pulse_of pulses.y) }
    ensures { result ≡ shifted_of at pulses }
{
    Point {
        x: shifted(at.x, pulses.x),
        y: shifted(at.y, pulses.y),
    }
}

// The code that tells how a coordinate changed.
fn change(before: i64, after: i64) -> u8
    ensures { result ≡ change_of before after }
{
    if before < after {
        return 1;
    }
    if after < before {
        return 2;
    }
    0
}

// The codes that tell how a position changed.
pub fn changes(before: Point, after: Point) -> Pulses
    ensures { result ≡ pulses_between before after }
{
    Pulses {
        x: change(before.x, after.x),
        y: change(before.y, after.y),
    }
}
