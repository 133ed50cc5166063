//! A log of payloads that is kept: each is on the disk before it is acknowledged, and whatever a stop
//! leaves is opened with a beginning of the log. What a payload means is not known here.
#![tactic(auto)]

mod entry;
mod log;
mod parts;
mod payload;
mod putting;
mod telling;

pub use entry::Entry;
pub use log::PayloadLog;
pub use parts::Parts;
pub use payload::Payload;
