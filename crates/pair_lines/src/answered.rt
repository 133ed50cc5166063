use bbs_model::Command;
use standby_board::{PairFault, PairReply};

/// How a client's call of the pair ended.
#[derive(Clone, Copy, Debug, PartialEq, Eq)]
pub enum PairEnded {
    /// The client got this reply.
    Got(PairReply),
    /// The client was told of this fault.
    Fault(PairFault),
    /// The call was lost, and nothing was done.
    CallLost,
    /// The call ended so, and the client doesn't know.
    ReplyLost(Result<PairReply, PairFault>),
}

/// One call of a script, and how it ended.
#[derive(Clone, Copy, Debug, PartialEq, Eq)]
pub struct PairAnswered {
    /// The client's number; actors count from 1.
    pub actor: u32,
    /// The line of the script, from 1.
    pub line: u32,
    pub command: Command,
    pub end: PairEnded,
}
