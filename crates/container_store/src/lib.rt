//! What a cell keeps of its containers, by number and by job, and what they leave of the cell.
#![tactic(auto)]

mod containers;
mod entries;
mod jobs;
mod laws;
mod lookups;
mod refusal;
mod running;
mod store;

pub use containers::is_reserved;
pub use jobs::{is_job_in, is_same_job};
pub use laws::a_reservation_can_be_given_up;
pub use refusal::{ReserveFault, StoreRefusal};
pub use store::Store;

#[cfg(test)]
mod tests;
