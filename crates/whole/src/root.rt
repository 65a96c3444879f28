// The least root (a line's cycles) and the nearest root (a circle's radius on an axis).
ghost use Rattle.std.specs.Prelude.{◌≡◌, ◌*◌, ◌^◌, ◌≤◌, eqb};
ghost use Rattle.whole.specs.Root.{least_root, nearest_root};

// The least q with q * q >= s, which is at most `reach`. Halves the gap between a number whose square is below s and one whose square is
// not.
fn root_within(s: u64, reach: u64) -> u64
    requires le_s { (1 ≤ s) × (s ≤ reach * reach) }
    requires le_reach { (1 ≤ reach) × (reach ≤ 2 ^ 32) }
    ensures { result ≡ least_root s }
{
    let mut below: u64 = 0;
    let mut gap = reach;
    while 1 < gap {
        let half = gap / 2;
        let middle = below + half;
        if middle * middle < s {
            below = middle;
        }
        gap = gap - half;
    }
    below + 1
}

// A float near the root of x, off by a part in 25 at most: a float's bit pattern is nearly its logarithm, and halving that takes the root.
fn half_pattern(x: f64) -> f64 {
    // a NaN alone differs from itself, and no pattern below infinity's is a NaN's
    if x == x {
        let pattern = f64::to_bits(x) / 2 + 0x1ff7_8000_0000_0000;
        if pattern < 0x7ff0_0000_0000_0000 {
            return f64::from_bits(pattern);
        }
    }
    1.0
}

// From r near the root of x to a float much nearer: where r is off by a part in n, it is off by a part in 16 n^5.
fn nearer(x: f64, r: f64) -> f64 {
    let square = r * r;
    let above = 5.0 * x * x + square * (10.0 * x + square);
    let below = x * x + square * (10.0 * x + 5.0 * square);
    r * above / below
}

// A float near the root of s, of which nothing is claimed: `least_root` tries it.
fn near_root(s: u64) -> f64
    requires { s ≤ 2 ^ 44 }
{
    // floats from 2^52 on, whose patterns start here, count ones; compiled, `s as f64` waits for what its register held, the root before
    let x = f64::from_bits(0x4330_0000_0000_0000 + s) - 4503599627370496.0;
    nearer(x, half_pattern(x))
}

// The least q with q * q >= s, for every s. Up to 65,536 the search is quickest, and up to 2^44, more than any line on a table has, a guess
// that its square confirms. Nothing is proved of the guess: where the square does not confirm it, the search follows.
pub fn least_root(s: u64) -> u64
    ensures { result ≡ least_root s }
{
    if s == 0 {
        return 0;
    }
    if s <= 65_536 {
        return root_within(s, 256);
    }
    if s <= 17_592_186_044_416 {
        // floats from 2^46 on count 64ths; taking whole ones, a guess a little too low still reaches the root's whole part
        let parts = near_root(s) + 70368744177664.0;
        if parts == parts {
            let g = f64::to_bits(parts) / 64 % 4_294_967_296;
            let square = g * g;
            if square < s {
                if s - square <= 2 * g + 1 {
                    return g + 1;
                }
            } else {
                if square - s + 1 < 2 * g {
                    return g;
                }
            }
        }
    }
    root_within(s, 4_294_967_296)
}

// The r with r * r - r < n <= r * r + r, for every n from 1 on: the root rounded to the nearest; 0 for 0.
pub fn nearest_root(n: u64) -> u64
    ensures { result ≡ nearest_root n }
{
    let q = least_root(n);
    if q == 0 {
        return 0;
    }
    let down = q - 1;
    if n <= q * down { down } else { q }
}

// The root of 2^44; either root of a number up to there is at most this.
const MOST_ROOT: u64 = 4_194_304;

// Whether q is the least root of s, by two squares; any q may be asked.
pub fn is_least_root(s: u64, q: u64) -> bool
    requires { s ≤ 2 ^ 44 }
    ensures { result ≡ eqb q (least_root s) }
{
    if q == 0 {
        return s == 0;
    }
    if MOST_ROOT < q {
        return false;
    }
    let less = q - 1;
    if s <= less * less {
        return false;
    }
    s <= q * q
}

// Whether r is the nearest root of n, by its square; any r may be asked.
pub fn is_nearest_root(n: u64, r: u64) -> bool
    requires { n ≤ 2 ^ 44 }
    ensures { result ≡ eqb r (nearest_root n) }
{
    if r == 0 {
        return n == 0;
    }
    if MOST_ROOT < r {
        return false;
    }
    let square = r * r;
    if n <= square - r {
        return false;
    }
    n <= square + r
}
