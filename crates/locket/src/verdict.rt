use crate::reply::LockReply;
use crate::state::LockState;

/// What the step of a command comes to, with the answer.
#[derive(Clone, Copy, Debug, PartialEq, Eq)]
pub enum LockVerdict {
    /// The state is to be this one.
    Changes(LockState, LockReply),
    /// The state stays.
    Stays(LockReply),
}
