// A line of plain numbers from a place of a lent buffer on. Where the buffer is too short, it stays as it is.
ghost use Rattle.std.specs.Prelude.{◌≡◌, ◌+◌, ◌*◌, ◌≤◌, ◌<◌, length};
ghost use Rattle.row.specs.computed.Numbers.{buffer_with, place_with};
ghost use Rattle.row.specs.computed.Numbers.{PutsNumbers, EndsIn};

use crate::push;

// Bytes that hold every number with its sign and the byte after it.
const NUMBER: usize = 22;

fn fields(out: &mut [u8], at: usize, numbers: &[i64]) -> usize
    requires { (0 < length numbers.now) × (at + 22 * length numbers.now ≤ length out.old) }
    ensures { PutsNumbers numbers.now out.old at out.new result }
{
    let last = numbers.len() - 1;
    let mut next = at;
    for n in &numbers[..last] {
        next = push::signed(out, next, *n, b' ');
    }
    push::signed(out, next, numbers[last], b'\n')
}

// One line with the numbers, a blank between.
pub fn line(out: &mut [u8], at: usize, numbers: &[i64]) -> Option<usize>
    ensures buffer { out.new ≡ buffer_with numbers.now out.old at }
    ensures place { result ≡ place_with numbers.now out.old at }
    ensures within { EndsIn out.old result }
{
    if out.len().saturating_sub(at) / NUMBER <= numbers.len() {
        return None;
    }
    if numbers.is_empty() {
        return Some(push::byte(out, at, b'\n'));
    }
    Some(fields(out, at, numbers))
}
