//! The edge of the program: how it ends, what it prints at a fault, the reading of its source, and the
//! opening of the board.
#![tactic(auto)]

mod ending;
mod opening;
mod place_line;
mod printing;
mod reading;
mod top_end;

pub use ending::{Ending, number_of};
pub use opening::{ended_unloaded, open};
pub use printing::{ended_before, ended_early, written};
pub use reading::{or_ending, read_bytes};
pub use top_end::TopEnd;
