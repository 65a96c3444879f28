// A line's two registers carried from cycle to cycle, for long runs: a cycle costs each axis a comparison and a sum, and no product.
ghost use Rattle.std.specs.Prelude.{◌≡◌, true, ◌+◌, ◌^◌, ◌≤◌, ◌<◌};
ghost use Rattle.line.specs.Line.{axis_steps};
ghost use Rattle.line.specs.computed.Line.{line_at};
ghost use Rattle.line.specs.computed.Register.{AxisFits};
ghost use Rattle.line.specs.computed.Stepper.{track_of, tracked_of, stepper_of, advanced_of, Fitting};

use crate::line::Line;
use crate::register::register;
use plane::point::{Point, between};
use plane::pulse::{Pulses, code};
use whole::sign::SignMagnitude;

// One axis. Its register is kept as the room that is left in it, so that one comparison decides both the pulse and the next room.
#[derive(Clone, Copy)]
pub struct Track {
    // Magnitude of the axis's increment.
    pub increment: u64,
    // What the register can still take without a pulse: the capacity less 1 and its contents.
    pub room: u64,
    // The axis's code where it pulses.
    pub code: u8,
}

// What a cycle of an axis gives.
#[derive(Drop)]
pub struct Tracked {
    pub track: Track,
    pub code: u8,
}

#[derive(Clone, Copy)]
pub struct Stepper {
    // The line's q.
    pub capacity: u64,
    pub x: Track,
    pub y: Track,
}

// What a cycle gives.
#[derive(Drop)]
pub struct Advanced {
    pub stepper: Stepper,
    pub pulses: Pulses,
}

// The axis after `done` cycles, from what it has moved.
fn track_after(q: u64, done: u64, way: SignMagnitude, moved: u64) -> Track
    requires { AxisFits q way.magnitude done × (moved ≡ axis_steps q way.magnitude done) }
    ensures { result ≡ track_of q way.magnitude way.negative done }
{
    Track {
        increment: way.magnitude,
        room: q - 1 - register(q, way.magnitude, done, moved),
        code: code(true, way.negative),
    }
}

impl Track {
    // One cycle of the axis.
    fn advance(self, capacity: u64) -> Tracked
        requires { (self.increment ≤ capacity) × (self.room + capacity < 2 ^ 64) }
        ensures { result ≡ tracked_of capacity self }
    {
        if self.increment <= self.room {
            Tracked {
                track: Track {
                    room: self.room - self.increment,
                    ..self
                },
                code: 0,
            }
        } else {
            Tracked {
                track: Track {
                    room: self.room + capacity - self.increment,
                    ..self
                },
                code: self.code,
            }
        }
    }
}

impl Stepper {
    // The products are here.
    pub fn enter(l: Line, at: Point) -> Stepper
        requires { line_at l at ≡ true }
        ensures { result ≡ stepper_of l }
    {
        let way = between(l.start, l.end);
        let gone = between(l.start, at);
        Stepper {
            capacity: l.cycles,
            x: track_after(l.cycles, l.done, way.x, gone.x.magnitude),
            y: track_after(l.cycles, l.done, way.y, gone.y.magnitude),
        }
    }

    // One cycle onward.
    #[tactic(auto, unfolding(crate::specs::computed::Stepper::advanced_of))]
    pub fn advance(self) -> Advanced
        requires { Fitting self }
        ensures { result ≡ advanced_of self }
    {
        let x = self.x.advance(self.capacity);
        let y = self.y.advance(self.capacity);
        Advanced {
            stepper: Stepper {
                capacity: self.capacity,
                x: x.track,
                y: y.track,
            },
            pulses: Pulses {
                x: x.code,
                y: y.code,
            },
        }
    }
}
