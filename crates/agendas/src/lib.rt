//! Keys in order, in memory that was taken before.
#![tactic(auto)]

mod agenda;

pub use agenda::Agenda;
