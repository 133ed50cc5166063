//! A cell is emptied: it is drained, and then tells the board of each of its containers again.
#![tactic(auto)]

mod evacuating;

pub use evacuating::{drained, evacuate};
