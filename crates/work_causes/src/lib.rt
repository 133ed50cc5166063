//! Why convergence asks a subject for something: a few causes, of which one has to hold.
#![tactic(auto)]

mod cause;
mod causing;
mod laws;

pub use cause::{Cause, Causes, Lease, Term};
pub use causing::{going, place_causes, task_cause};
pub use laws::{causes_are_alike, causes_tell};
