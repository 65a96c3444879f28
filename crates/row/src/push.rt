// Bytes, texts and numbers put into a buffer from a place on. Each answers the next place; each caller shows that there is room.
// Not by Display: its clauses say the bytes on Ok alone, and `buffer` of `lines::block` knows no other case; rows are timed beside C's.
// The place is no field of a writer: `Puts` speaks of the buffer before and after each piece, and a loan held by a writer ends but once.
ghost use Rattle.std.specs.Prelude.{◌≡◌, ◌++◌, ◌∷◌, [], ◌+◌, ◌^◌, ◌≤◌, ◌<◌, length};
ghost use Rattle.row.specs.Decimal.{decimal, signed_decimal};
ghost use Rattle.row.specs.computed.Long.{long_of, last_digits};
ghost use Rattle.row.specs.computed.Puts.{Puts};

use crate::long::{LOW_DIGITS, LOW_LIMIT, LongCount};
use whole::sign;

pub fn byte(out: &mut [u8], at: usize, b: u8) -> usize
    requires { at < length out.old }
    ensures { Puts (b ∷ []) 1 out.old at out.new result }
{
    out[at] = b;
    at + 1
}

pub fn text(out: &mut [u8], at: usize, s: &[u8]) -> usize
    requires { at + length s.now ≤ length out.old }
    ensures { Puts s.now (length s.now) out.old at out.new result }
{
    // Not by `copy_from_slice`, for which the archive would need memcpy from outside.
    for i in 0..s.len() {
        out[at + i] = s[i];
    }
    at + s.len()
}

// How many digits n has, 20 at most. Most numbers of a listing are short: up to four digits are told by comparisons alone.
fn width(n: u64) -> usize
    ensures { result ≡ length (decimal n) }
{
    if n < 10 {
        return 1;
    }
    if n < 100 {
        return 2;
    }
    if n < 1_000 {
        return 3;
    }
    if n < 10_000 {
        return 4;
    }
    let mut m = n / 10_000;
    let mut w = 5;
    while 10 <= m {
        m = m / 10;
        w += 1;
    }
    w
}

// The digits of n, which has no more than `count`, and zeros before them. The first one takes no division.
fn last_digits(out: &mut [u8], at: usize, count: usize, n: u64) -> usize
    requires { (at + count ≤ length out.old) × (0 < count) × (n < 10 ^ count) }
    ensures { Puts (last_digits count n) count out.old at out.new result }
{
    let end = at + count;
    let mut rest = n;
    for i in (at + 1..end).rev() {
        out[i] = b'0' + (rest % 10) as u8;
        rest /= 10;
    }
    out[at] = b'0' + rest as u8;
    end
}

// The digits of n, from the last to the first: those of m are still to be written, in the places before i. Not by `last_digits`: its turns
// are counted beforehand, so the compiler unrolls them, and a listing of short lines took a tenth more instructions by it.
pub fn digits(out: &mut [u8], at: usize, n: u64) -> usize
    requires { at + length (decimal n) ≤ length out.old }
    ensures { Puts (decimal n) (length (decimal n)) out.old at out.new result }
{
    let end = at + width(n);
    let mut m = n;
    let mut i = end;
    while 10 <= m {
        i -= 1;
        out[i] = b'0' + (m % 10) as u8;
        m /= 10;
    }
    out[at] = b'0' + m as u8;
    end
}

// A number and the byte that ends its field.
pub fn number(out: &mut [u8], at: usize, n: u64, end: u8) -> usize
    requires { at + 21 ≤ length out.old }
    ensures { Puts (decimal n ++ (end ∷ [])) 21 out.old at out.new result }
{
    let last = digits(out, at, n);
    byte(out, last, end)
}

// A count in two parts and the byte that ends its field; a low part of 10^18 or more carries into the high one.
pub fn long(out: &mut [u8], at: usize, n: LongCount, end: u8) -> usize
    requires { at + 39 ≤ length out.old }
    ensures { Puts (decimal (long_of n) ++ (end ∷ [])) 39 out.old at out.new result }
{
    let high = n.high as u64 + n.low / LOW_LIMIT;
    let low = n.low % LOW_LIMIT;
    if high == 0 {
        return number(out, at, low, end);
    }
    let first = digits(out, at, high);
    let last = last_digits(out, first, LOW_DIGITS, low);
    byte(out, last, end)
}

// The same of a number with a sign. Its magnitude is one of u64, also for the least i64.
// Signs come as they like, so this is written for a compiler to need no jump: the minus is always stored, and the first digit of a number
// that is not negative goes over it.
pub fn signed(out: &mut [u8], at: usize, v: i64, end: u8) -> usize
    requires { at + 22 ≤ length out.old }
    ensures { Puts (signed_decimal v ++ (end ∷ [])) 22 out.old at out.new result }
{
    let p = sign::part(v);
    out[at] = b'-';
    let first = if p.negative { at + 1 } else { at };
    number(out, first, p.magnitude, end)
}
