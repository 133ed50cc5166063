//! A locket: leases with fences that never come again, kept in a journal. Whatever a stop leaves is
//! opened with a beginning of what was done, and all that was acknowledged is in it.
#![tactic(auto)]

mod bytes;
mod command;
mod deciding;
mod following;
mod item;
mod laws;
mod loading;
mod locket;
mod memory_loading;
mod parts;
mod reply;
mod state;
mod telling;
mod verdict;

pub use bytes::{put_lock_command, read_lock_command};
pub use command::{LockCommand, LockOp};
pub use deciding::step;
pub use item::LockItem;
pub use loading::load;
pub use locket::Locket;
pub use memory_loading::load_from_memory;
pub use parts::LocketParts;
pub use reply::{LockFault, LockRefusal, LockReply};
pub use state::{Lease, LockState};
pub use verdict::LockVerdict;
