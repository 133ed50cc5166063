//! A whole run: a scenario is read, a board is opened, and the scenario is played on it.
#![tactic(auto)]

mod ended;
mod reading;
mod running;

pub use ended::Ended;
pub use running::run;
