//! The scenario of a number, run on an empty board in memory: nothing is told of it but its summary.
#![tactic(auto)]

mod doubts;
mod large;
mod prepared;
mod silent;

pub use large::run_large;
pub use silent::SilentTeller;
