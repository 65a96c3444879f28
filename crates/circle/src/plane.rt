// Points seen from the centre, the two ways round, and the circle test.
ghost use Rattle.std.specs.Prelude.{◌≡◌, ◌≤◌, ◌<◌, ◌^◌, max, nat_abs};
ghost use Rattle.circle.specs.Circle.{largest_n, circle_test, on_circle};
ghost use Rattle.circle.specs.computed.Kind.{kind_of, TurnOfKind};
ghost use Rattle.circle.specs.computed.Step.{seen};

const LARGEST_N: u64 = 2_000_000_000_000;

// A point seen from the centre, in pulses. A type apart from `plane::Point`, which has the same fields: `seen` and `back` of crate `arc`
// alone turn one into the other, so no generic pair stands for both.
#[derive(Clone, Copy)]
pub struct Offset {
    pub x: i64,
    pub y: i64,
}

// The way round, X right and Y up.
#[derive(Clone, Copy)]
pub enum Turn {
    Clockwise,
    Counterclockwise,
}

// A kind that is no way round.
#[derive(Clone, Copy)]
pub struct UnknownTurn(pub u64);

impl TryFrom<u64> for Turn {
    type Error = UnknownTurn;

    ghost try_from_gives = { TurnOfKind };

    fn try_from(kind: u64) -> Result<Self, UnknownTurn> {
        match kind {
            2 => Ok(Turn::Clockwise),
            3 => Ok(Turn::Counterclockwise),
            _ => Err(UnknownTurn(kind)),
        }
    }
}

impl From<Turn> for u64 {
    ghost from_gives = { λ turn kind. kind ≡ kind_of turn };

    fn from(turn: Turn) -> u64 {
        match turn {
            Turn::Clockwise => 2,
            Turn::Counterclockwise => 3,
        }
    }
}

// -m <= F < m without signs: F is a * a + b * b - n.
fn near_circle(n: u64, a: u64, b: u64) -> bool
    requires { (n ≤ largest_n) × (a ≤ 2000000) × (b ≤ 2000000) }
    ensures { result ≡ circle_test n a b }
{
    let m = a.max(b);
    let s = a * a + b * b;
    s < n + m && n <= s + m
}

// Whether n is in 1..2,000,000,000,000 and p a circle point of n, for any values.
// Coordinates beyond 2,000,000 are refused before they are squared; those of a circle point are at most 1,414,214.
#[tactic(auto, using(crate::proofs::laws::Circle::not_on_circle), unfolding(crate::specs::Circle::on_circle))]
pub fn on_circle(n: u64, p: Offset) -> bool
    ensures { result ≡ on_circle n p }
{
    let a = p.x.unsigned_abs();
    let b = p.y.unsigned_abs();
    (1..=LARGEST_N).contains(&n) && a <= 2_000_000 && b <= 2_000_000 && near_circle(n, a, b)
}

// Clockwise is counterclockwise in a mirror. The least i64 has no mirror image.
pub fn seen_from(turn: Turn, p: Offset) -> Offset
    requires { nat_abs p.y < 2 ^ 63 }
    ensures { result ≡ seen turn p }
{
    match turn {
        Turn::Clockwise => Offset { y: -p.y, ..p },
        Turn::Counterclockwise => p,
    }
}
