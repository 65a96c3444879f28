// Positions in the plane of the table, the way between two of them, travel bounds, and the pulses that move a position by one.
// All lengths are whole pulses; X is right, Y is up.
#![tactic(auto)]

pub mod byte;
pub mod point;
pub mod pulse;
pub mod travel;
