// The record of a bench as 19 words of 64 bits that a caller in C owns, and back. A check of a job text has such words; those of a machine
// with a queue begin with the same.
#![tactic(auto)]

pub mod decode;
pub mod encode;
pub mod given;
pub mod number;
pub mod right;
