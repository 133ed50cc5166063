//! A round of convergence, over any way to the board and any wire: cells are asked, what rows and
//! answers ask for is called, what no row needs is stopped, and the work that waits is started.
#![tactic(auto)]

mod adding;
mod asking;
mod calls;
mod cell_jobs;
mod claims;
mod closing;
mod converging;
mod counting;
mod jobs;
mod opening;
mod placing;
mod rep_index;
mod seen_rows;
mod sending;
mod starting;
mod stopping;
mod tally;

pub use calls::call_each;
pub use claims::{Claimed, Start, StartEnd};
pub use converging::round;
pub use jobs::{jobs_of, named_job};
pub use opening::{Opening, open_round};
pub use rep_index::RepIndex;
pub use sending::reaches;
pub use starting::claim_on;
pub use tally::Tally;
