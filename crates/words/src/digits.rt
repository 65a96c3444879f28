// The digits that the rest of a line begins with.
ghost use Rattle.std.specs.Prelude.{◌≡◌, ◌≤◌, ◌<◌};
ghost use Rattle.words.specs.computed.Scan.{first_byte, is_digit, digits_of, Sized};

// What was read: the number that the digits write, after those that stood before, and how many of them there are.
#[derive(Drop)]
pub struct Digits {
    pub value: u64,
    pub count: usize,
}

// After its last byte a line has a blank more: it ends the last number and changes nothing else.
pub fn first_byte(rest: &[u8]) -> u8
    ensures { result ≡ first_byte rest.now }
{
    rest.first().copied().unwrap_or(b' ')
}

fn is_digit(b: u8) -> bool
    ensures { result ≡ is_digit b }
{
    b'0' <= b && b <= b'9'
}

// At most so many digits, which go on after those that wrote `value`. Seven digits after seven stay far below 2^64.
pub fn read(rest: &[u8], most: usize, value: u64) -> Digits
    requires most_bound { most ≤ 7 }
    requires value_bound { value < 10_000_000 }
    ensures value { result ≡ digits_of most value rest.now }
    ensures sized { Sized rest.now most value result }
{
    let mut d = Digits { value, count: 0 };
    for &b in &rest[..most.min(rest.len())] {
        if !is_digit(b) {
            return d;
        }
        d = Digits {
            value: d.value * 10 + (b - b'0') as u64,
            count: d.count + 1,
        };
    }
    d
}
