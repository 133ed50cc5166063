//! The answers to all that is asked of a dump, as data and as text.
#![tactic(auto)]

mod answers;
mod losses;
mod planner;
mod told;

pub use planner::SitePlanner;
pub use told::{Told, findings, tell};
