//! What each transition tells convergence: why each subject is asked for something, kept along a board.
#![tactic(auto)]

mod commands;
mod counted;
mod differences;
mod due;
mod entries;
mod following;
mod gathering;
mod kept;
mod told;

pub use counted::{Counted, CountedRows};
pub use differences::Differences;
