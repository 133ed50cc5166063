//! A script of lock commands: its lines are read, a lock journal is opened, and they run on it.
#![tactic(auto)]

mod ended;
mod lines;
mod opening;
mod printing;
mod reading;
mod running;
mod summing;

pub use ended::LocksEnded;
pub use running::run_locks;
