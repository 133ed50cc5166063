//! How long an instance that crashes again and again waits before it is restarted.
#![tactic(auto)]

mod backoff;
mod delay;
mod moment;

pub use backoff::{due, due_at, next_count, wait};
pub use delay::Wait;
pub use moment::Moment;
