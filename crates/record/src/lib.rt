// The record of a machine as 134 words of 64 bits that a caller in C owns: what they tell, whether they are a sound record, and what a call
// writes. The words behind the last block that waits are no part of the record: none is read, and none is written.
#![tactic(auto)]

pub mod read;
pub mod sound;
pub mod write;
