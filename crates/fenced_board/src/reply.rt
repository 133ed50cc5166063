use bbs_model::Reply;

/// The answer of a board behind a fence.
#[derive(Clone, Copy, Debug, PartialEq, Eq)]
pub enum FencedReply {
    /// The board's own.
    Reply(Reply),
    /// A greater number was shown before, and nothing was done.
    StaleFence { greatest: u64 },
}
