// What a job text has come to, as words that a caller in C owns beside those of the record: the G and F known, and a check's progress.
#![tactic(auto)]

pub mod known;
pub mod long;
pub mod progress;
