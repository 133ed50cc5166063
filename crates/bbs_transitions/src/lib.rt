//! The board's step over any store of rows, in place and without memory.
#![tactic(auto)]

mod edits;
mod looks;
mod redoing;
mod stepped;
mod steps;

pub use redoing::redo;
pub use stepped::Stepped;
pub use steps::{apply, decide, step_in};
