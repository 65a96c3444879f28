// One axis of a line: its register, and how far it has moved.
// In every function `capacity` is the line's q, `increment` the magnitude of the axis's increment and `done` the cycles done.
ghost use Rattle.std.specs.Prelude.{◌≡◌, ◌+◌, ◌^◌, ◌<◌, eqb};
ghost use Rattle.line.specs.Line.{axis_steps};
ghost use Rattle.line.specs.computed.Register.{AxisFits};
ghost use Rattle.line.specs.Register.{clock_of, register_of};

// What a clock of the register gives; the same sum as `divider::add_feed`, and why it stands apart is said there.
#[derive(Drop)]
pub struct Clocked {
    pub register: u64,
    pub pulse: bool,
}

// One cycle: the increment is added; on reaching the capacity the capacity is taken off, and the axis pulses.
pub fn clock(capacity: u64, increment: u64, register: u64) -> Clocked
    requires { register + increment < 2 ^ 64 }
    ensures { result ≡ clock_of capacity increment register }
{
    let sum = register + increment;
    if capacity <= sum {
        Clocked {
            register: sum - capacity,
            pulse: true,
        }
    } else {
        Clocked {
            register: sum,
            pulse: false,
        }
    }
}

// The register, from what the axis has moved: no division.
pub fn register(capacity: u64, increment: u64, done: u64, moved: u64) -> u64
    requires { AxisFits capacity increment done × (moved ≡ axis_steps capacity increment done) }
    ensures { result ≡ register_of capacity increment done }
{
    capacity / 2 + increment * done - capacity * moved
}

// How far the axis has moved: the one division of a line.
pub fn moved(capacity: u64, increment: u64, done: u64) -> u64
    requires { AxisFits capacity increment done }
    ensures { result ≡ axis_steps capacity increment done }
{
    (capacity / 2 + increment * done) / capacity
}

// Whether the axis has moved so far, by products alone; any number may be asked.
#[tactic(auto, using(crate::specs::laws::Axis::too_far, crate::specs::laws::Axis::not_yet, crate::specs::laws::Axis::by_product))]
pub fn has_moved(capacity: u64, increment: u64, done: u64, moved: u64) -> bool
    requires { AxisFits capacity increment done }
    ensures { result ≡ eqb moved (axis_steps capacity increment done) }
{
    if increment < moved {
        return false;
    }
    let sum = capacity / 2 + increment * done;
    let whole = capacity * moved;
    whole <= sum && sum - whole < capacity
}
