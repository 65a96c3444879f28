// The lines of the check program's listing and lines of plain numbers, in bytes, written straight into a lent buffer.
// Every public function answers for every argument, but `LongCount::plus` and those of `push`, whose callers show that there is room.
// `specs/Lines.antt` and `specs/computed/Numbers.antt` say what the lines have to be.
#![tactic(auto)]

pub mod lines;
pub mod long;
pub mod numbers;
pub mod push;
