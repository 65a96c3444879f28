// The number of a word: a sign, digits, a point and decimals.
ghost use Rattle.std.specs.Prelude.{◌≡◌, ◌-◌, ◌^◌, ◌≤◌, length, IfSome};
ghost use Rattle.words.specs.computed.Scan.{first_byte, sign_of, amount_of, number_of};

use crate::digits;
use crate::digits::first_byte;
use letters::letter::Letter;

#[derive(Drop)]
pub struct Sign {
    pub negative: bool,
    // How many bytes write it: 1, or 0 where there is none.
    pub bytes: usize,
}

// A number without its sign.
#[derive(Drop)]
pub struct Amount {
    // In thousandths where a point is taken (below 10^10), else a plain number (below 10^7).
    pub value: u64,
    pub bytes: usize,
}

// A number with its sign, in the same units.
#[derive(Drop)]
pub struct Number {
    pub negative: bool,
    pub magnitude: u64,
    pub bytes: usize,
}

// A sign where the letter takes one. Signs come as they like, so this is written for a compiler to need no jump.
fn read_sign(rest: &[u8], takes: bool) -> Sign
    ensures value { result ≡ sign_of takes (first_byte rest.now) }
    ensures bytes_in_bounds { result.bytes ≤ length rest.now }
{
    if !takes {
        return Sign {
            negative: false,
            bytes: 0,
        };
    }
    let b = first_byte(rest);
    let minus = b == b'-';
    let plus = b == b'+';
    Sign {
        negative: minus,
        bytes: minus as usize + plus as usize,
    }
}

// What the last of so many decimals counts, in thousandths.
fn place(count: usize) -> u64
    requires { count ≤ 3 }
    ensures { result ≡ 10 ^ (3 - count) }
{
    match count {
        0 => 1000,
        1 => 100,
        2 => 10,
        _ => 1,
    }
}

// One to seven digits and, where a point is taken, a point and one to three digits more. An eighth digit, a fourth decimal or a point
// that is not taken is left to the scan of the line, which refuses it, since no item begins so.
fn read_amount(rest: &[u8], fine: bool) -> Option<Amount>
    ensures value { result ≡ amount_of fine rest.now }
    ensures bytes_in_bounds { IfSome result (λ m. m.bytes ≤ length rest.now) }
{
    let w = digits::read(rest, 7, 0);
    if w.count < 1 {
        return None;
    }
    if !fine {
        return Some(Amount {
            value: w.value,
            bytes: w.count,
        });
    }
    let after = &rest[w.count..];
    if first_byte(after) != b'.' {
        return Some(Amount {
            value: w.value * 1000,
            bytes: w.count,
        });
    }
    let d = digits::read(&after[1..], 3, w.value);
    if d.count < 1 {
        return None;
    }
    Some(Amount {
        value: d.value * place(d.count),
        bytes: w.count + 1 + d.count,
    })
}

// The number of a word: what the bytes after its letter begin with, if that is a number.
pub fn read(rest: &[u8], l: Letter) -> Option<Number>
    ensures value { result ≡ number_of l rest.now }
    ensures bytes_in_bounds { IfSome result (λ n. n.bytes ≤ length rest.now) }
{
    let sign = read_sign(rest, l.takes_sign());
    let amount = read_amount(&rest[sign.bytes..], l.takes_point())?;
    Some(Number {
        negative: sign.negative,
        magnitude: amount.value,
        bytes: sign.bytes + amount.bytes,
    })
}
