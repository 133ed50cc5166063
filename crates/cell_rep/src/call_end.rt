use bbs_model::{CallFault, Command, Reply};
use container_store::StoreRefusal;

/// Why a rep makes no call.
#[derive(Clone, Copy, Debug, PartialEq, Eq)]
pub enum RepRefusal {
    /// The rep has not joined, or is down.
    Down,
    /// The cell's store refuses.
    Store(StoreRefusal),
}

/// How a call ended for its caller.
#[derive(Clone, Copy, Debug, PartialEq, Eq)]
pub enum CallEnd {
    /// The board answered.
    Got(Reply),
    /// The board had no answer.
    Fault(CallFault),
    /// The call did not reach the board.
    CallLost,
    /// The board had this answer, and the caller does not know of it.
    ReplyLost(Result<Reply, CallFault>),
    /// No call was made: the rep refused.
    Local(RepRefusal),
    /// There was nothing to call.
    Idle,
}

/// A call and how it ended.
#[derive(Clone, Copy, Debug, PartialEq, Eq)]
pub struct Called {
    /// None where no call was made.
    pub command: Option<Command>,
    pub end: CallEnd,
}
