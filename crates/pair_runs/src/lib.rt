//! The phases of a script, on whatever answers a pair's clients: their calls one after another, what came of
//! them, and their text.
#![tactic(auto)]

mod account;
mod calls;
mod phases;
mod server;
mod telling;

pub use account::{Account, AccountLists};
pub use phases::{PhasesEnded, run_phases};
pub use server::Server;
