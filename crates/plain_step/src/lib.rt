//! The board's step by plain scans of sorted rows, and a port over it.
#![tactic(auto)]

mod editing;
mod looking;
mod port;
mod runs;
mod step;
mod tables;
mod two_calls;

pub use editing::{copy_of, put, take_away};
pub use looking::{counts, found};
pub use port::PlainPort;
pub use runs::{run, run_all};
pub use step::{apply, decide};
pub use two_calls::call_twice;
