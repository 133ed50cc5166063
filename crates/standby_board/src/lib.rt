//! Two boards behind one fence: each command is stored on the primary first and on the standby next, so
//! that the standby can take over with all that was acknowledged.
#![tactic(auto)]

mod answers;
mod calling;
mod equality;
mod laws;
mod pair;
mod reading;
mod starting;
mod taking_over;

pub use answers::{PairFault, PairReply, StaleFence, StartRefusal};
pub use laws::{beginnings_are_reached, numbers_rise_over_take_overs};
pub use pair::Pair;
pub use taking_over::{ClosedPair, Taken};
