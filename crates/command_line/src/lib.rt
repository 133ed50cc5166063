//! The words that a program is started with.
#![tactic(auto)]

mod reading;

pub use reading::words;
