// A count that may pass 64 bits. At p 1 and w 20,000 the ticks of a job can: 2,320 full turns of radius 1,000,000 at F0.001 are more than
// 2^64 of them. It is kept in two parts, cut where a decimal can be, so that it is printed without a long division.
ghost use Rattle.std.specs.Prelude.{◌≡◌, ◌+◌, ◌^◌, ◌<◌};
ghost use Rattle.row.specs.computed.Long.{low_limit, none_counted, plus_of};

pub const LOW_LIMIT: u64 = 1_000_000_000_000_000_000;

// A low part has no more digits.
pub const LOW_DIGITS: usize = 18;

// low + high × 10^18.
#[derive(Clone, Copy)]
pub struct LongCount {
    // Below 10^18 in every count that began at 0.
    pub low: u64,
    pub high: u32,
}

impl LongCount {
    pub fn zero() -> LongCount
        ensures { result ≡ none_counted }
    {
        LongCount { low: 0, high: 0 }
    }

    // So many more: at most one is carried.
    pub fn plus(self, more: u64) -> LongCount
        requires { (self.low < low_limit) × (more < low_limit) × (self.high + 1 < 2 ^ 32) }
        ensures { result ≡ plus_of self more }
    {
        let low = self.low + more;
        if low < LOW_LIMIT {
            return LongCount { low, ..self };
        }
        LongCount {
            low: low - LOW_LIMIT,
            high: self.high + 1,
        }
    }
}
