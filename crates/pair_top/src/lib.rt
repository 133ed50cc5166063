//! The program of the standby pair: a script is read, two boards are opened and paired, and the script's phases
//! run on the pair, and on the standby alone once it has taken over.
#![tactic(auto)]

mod alone;
mod closing;
mod ending;
mod handing;
mod leases;
mod lines;
mod opening;
mod outcome;
mod reading;
mod running;
mod standing;
mod summing;
mod top;

pub use ending::{PairEnding, number_of};
pub use top::{PairEnd, pair_top};
