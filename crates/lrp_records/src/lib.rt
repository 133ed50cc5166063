//! The records of long-running processes: what is desired, what is actual, and how it may change.
#![tactic(auto)]

mod actual;
mod desired;
mod lrp_move;
mod move_end;
mod moves;
mod orders;
mod presence;
mod refusal;
mod state;
mod steps;

pub use actual::Actual;
pub use desired::Desired;
pub use lrp_move::LrpMove;
pub use move_end::MoveEnd;
pub use moves::move_of;
pub use orders::{places_are_ordered, presences_are_ordered};
pub use presence::Presence;
pub use refusal::LrpRefusal;
pub use state::LrpState;
