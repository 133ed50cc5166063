//! A board that many threads share: each has a pass, and each call and each look is one turn.
#![tactic(auto)]

mod at_desk;
mod calling;
mod ending;
mod jobs;
mod looking;
mod meeting;
mod origin;
mod port;
mod shared_board;

pub use at_desk::AtDesk;
pub use origin::Origin;
pub use port::SharedPort;
pub use shared_board::{BoardPass, SharedBoard};
