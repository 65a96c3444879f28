// The letters of a line of words, and what a line says of each letter. No function here asks anything of its arguments.
#![tactic(auto)]

pub mod found;
pub mod letter;
pub mod word;
