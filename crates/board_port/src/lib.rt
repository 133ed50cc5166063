//! The port of a board's one caller.
#![tactic(auto)]

mod port;
mod uncounted;

pub use port::SolePort;
pub use uncounted::uncounted_work;
