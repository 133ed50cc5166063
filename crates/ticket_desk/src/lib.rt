//! Turns at one value for many threads, in the order of their tickets. What each thread has seen of
//! the value's history, and what it has added to it, is known wherever its pass is.
#![tactic(auto)]

mod bells;
mod close;
mod desk;
mod history;
mod meet;
mod pass;
mod plays;
mod rule;
mod start;
mod tickets;
mod turn;
mod view;

pub use bells::Bells;
pub use desk::Desk;
pub use history::History;
pub use pass::{Pass, PassOf};
pub use rule::{Board, ByTurns, Place};
pub use view::{Told, View};

#[cfg(test)]
mod tests;
