// A block as a load is given it, and load's questions about it.
#![tactic(auto)]

pub mod questions;
pub mod root;

use circle::plane::{Offset, Turn};
use plane::point::Point;

// A straight line, or an arc: its way round and its centre seen from the start, document 01's (I, J). No other kind can be given.
#[derive(Clone, Copy)]
pub enum Path {
    Line,
    Arc(Turn, Offset),
}

#[derive(Clone, Copy)]
pub struct Block {
    pub path: Path,
    // Absolute pulses.
    pub end: Point,
    // Feed number, thousandths of a pulse per minute.
    pub feed: u64,
}
