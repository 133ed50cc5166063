//! Readers of a board's events, each of which goes on where it stopped.
#![tactic(auto)]

mod subscription;

pub use subscription::Subscription;
