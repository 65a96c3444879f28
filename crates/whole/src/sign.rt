// Sign and magnitude, parted and joined again.
ghost use Rattle.std.specs.Prelude.{◌≡◌};
ghost use Rattle.std.specs.Int.{w64};
ghost use Rattle.std.proofs.Common.{SFits};
ghost use Rattle.whole.specs.computed.Sign.{part_of, join_of, difference_of};

// A whole number as sign and magnitude; 0 is not negative.
#[derive(Drop)]
pub struct SignMagnitude {
    pub negative: bool,
    pub magnitude: u64,
}

// The way from one number to another. It is below 2^64, so it is exact for every pair of i64.
pub fn difference(from: i64, to: i64) -> SignMagnitude
    ensures { result ≡ difference_of from to }
{
    SignMagnitude {
        negative: to < from,
        magnitude: to.abs_diff(from),
    }
}

// Right for the least i64 too, whose magnitude no i64 has.
pub fn part(x: i64) -> SignMagnitude
    ensures { result ≡ part_of x }
{
    SignMagnitude {
        negative: x < 0,
        magnitude: x.unsigned_abs(),
    }
}

// The least i64 has a magnitude that no i64 has, so 1 is taken off before the cast.
pub fn join(p: SignMagnitude) -> i64
    requires { SFits w64 (join_of p) }
    ensures { result ≡ join_of p }
{
    let m = p.magnitude;
    if p.negative {
        if m == 0 { 0 } else { -1 - (m - 1) as i64 }
    } else {
        m as i64
    }
}
