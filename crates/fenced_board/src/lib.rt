//! A board behind a fence: whoever writes shows a number, and none is taken that is below one that was
//! shown before.
#![tactic(auto)]

mod fence;
mod fenced;
mod laws;
mod reply;

pub use fence::Fence;
pub use fenced::Fenced;
pub use laws::a_lower_number_never_writes_after_a_higher_one;
pub use reply::FencedReply;
