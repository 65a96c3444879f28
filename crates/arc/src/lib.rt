// Arcs on the table: document 01's "Arcs" about a centre. The circle itself, seen from its centre, is crate `circle`, the sums of its
// charges are `charges`, and its travel test is `clearance`; here are positions.
#![tactic(auto)]

pub mod arc;
pub mod centre;
pub mod stepper;
