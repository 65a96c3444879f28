// The byte of a tick that did a cycle: X code + 4 * Y code + 16, and 32 more where the block ended. Any other tick gives 0.
ghost use Rattle.std.specs.Prelude.{◌≡◌, ◌≤◌};
ghost use Rattle.plane.specs.Byte.{both_codes, with_marks, cycle_byte};

use crate::pulse::Pulses;

fn both_codes(pulses: Pulses) -> u8
    requires { (pulses.x ≤ 2) × (pulses.y ≤ 2) }
    ensures { result ≡ both_codes pulses }
{
    pulses.x + 4 * pulses.y
}

// The byte with these codes of both axes, where the caller has their sum already.
pub fn with_marks(codes: u8, ended: bool) -> u8
    requires { codes ≤ 10 }
    ensures { result ≡ with_marks codes ended }
{
    if ended { codes + 48 } else { codes + 16 }
}

pub fn cycle_byte(pulses: Pulses, ended: bool) -> u8
    requires { (pulses.x ≤ 2) × (pulses.y ≤ 2) }
    ensures { result ≡ cycle_byte pulses ended }
{
    with_marks(both_codes(pulses), ended)
}
