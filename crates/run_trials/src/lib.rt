//! What the tests of whole runs have in common: boards and scenarios, what the program is given in memory, and what
//! it leaves.
#![tactic(auto)]

mod boards;
mod left;
mod ports;
mod scenarios;

pub use boards::{EMPTY, OLD_EMPTY, OLD_STORED, STORED};
pub use left::{Left, left_of};
pub use ports::{disk_of, left_on, sink_of, words_of};
pub use scenarios::{PLACED, PLACES, REALISTIC};
