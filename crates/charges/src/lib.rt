// What a way round a circle comes to, without walking it. A cycle is charged 1,000 where its step is straight, 1,414 where it is diagonal.
#![tactic(auto)]

pub mod jump;
pub mod search;
pub mod sum;

// From one place on to another.
#[derive(Clone, Copy)]
pub struct Span {
    pub cycles: u64,
    // The sum of what these cycles are charged.
    pub charges: u64,
}

// What a sum of charges pays for: so many cycles, their charges, and the point after them, on a circle or on the table.
#[derive(Drop)]
pub struct Paid<P> {
    pub cycles: u64,
    pub charges: u64,
    pub at: P,
}
