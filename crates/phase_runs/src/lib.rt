//! A phase of a scenario on one thread: each actor in its turn, and the round behind them.
#![tactic(auto)]

mod acting;
mod actors;
mod lost_names;
mod phases;
mod reps;
mod round_wire;
mod rounds;

pub use actors::run_actors;
pub use phases::{Ran, run_phase};
pub use reps::{put_reps, take_reps};
pub use rounds::{round_on, round_over};
