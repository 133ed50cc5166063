//! A phase of a scenario on threads: its actors at once, each with a pass of a shared board.
#![tactic(auto)]

mod acting;
mod actors;
mod at_once;
mod beside;
mod dealing;
mod gathering;
mod holding;
mod phases;
mod rooms;
mod with_round;

pub use phases::run_phase;
