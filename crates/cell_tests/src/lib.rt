//! Cells that act on a board in memory, over a wire that loses calls and a disk that fails once: what the
//! crates of cells are tried with.
#![tactic(auto)]

mod failing_port;
mod playing;

pub use failing_port::FailingPort;
pub use playing::{Turn, play};

#[cfg(test)]
mod tests;
