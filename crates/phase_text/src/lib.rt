//! The text of one phase of a scenario: its answers and the report of its round by line, and then its
//! events.
#![tactic(auto)]

mod answering;
mod asking;
mod laws;
mod sorting;
mod telling;

pub use laws::rows_stand_in_order;
pub use sorting::{answers_by_line, events_by_key};
pub use telling::phase_text;
