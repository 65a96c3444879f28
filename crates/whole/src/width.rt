// The register width.
ghost use Rattle.std.specs.Prelude.{◌≡◌};
ghost use Rattle.whole.specs.Root.{nearest_root};
ghost use Rattle.whole.specs.Width.{width_of};

// The fewest bits that hold n, by leading zeros: 60,000 gives 16, 2,400 gives 12, 1 gives 1, 0 gives 0.
pub fn width(n: u64) -> u64
    ensures { result ≡ width_of n }
{
    64 - u64::leading_zeros(n) as u64
}

// The fewest bits that hold the nearest root of n, without the root. That root is at most k exactly where n <= k * k + k. With k the
// largest number of half as many bits as n has, rounded up, this tells whether the root has as many bits as k or one more.
pub fn root_width(n: u64) -> u64
    ensures { result ≡ width_of (nearest_root n) }
{
    let half = (width(n) + 1) / 2;
    let top: u64 = 1 << half;
    if n <= (top - 1) * top { half } else { half + 1 }
}
