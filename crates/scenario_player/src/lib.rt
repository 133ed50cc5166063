//! A whole scenario on a board: phase after phase, each told when it has ended.
#![tactic(auto)]

mod actors;
mod counting;
mod events;
mod kept;
mod playing;
mod summing;
mod teller;
mod whole;

pub use events::events_from;
pub use playing::{Played, play};
pub use teller::Teller;
pub use whole::WholeTeller;
