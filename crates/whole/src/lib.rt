// Whole numbers: sign and magnitude, the least and the nearest root, the register width.
// Every function answers for every argument, but `sign::join`, whose callers show that the number is one of i64.
#![tactic(auto)]

pub mod root;
pub mod sign;
pub mod width;
