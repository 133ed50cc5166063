//! A pair of boards that many threads share: each has a pass, and each call is one turn.
#![tactic(auto)]

mod at_desk;
mod calling;
mod ending;
mod jobs;
mod shared_pair;

pub use at_desk::{AtDesk, Starts};
pub use shared_pair::{PairPass, SharedPair};
