use crate::BoardRefusal;

/// The board's answer to a call. A place is a position in the log of this opening.
#[derive(Clone, Copy, Debug, PartialEq, Eq)]
pub enum Reply {
    /// The transition is acknowledged. Its item stands at `place`, and `stamp` is the number of
    /// transitions in the board's life before it.
    Ok { place: u64, stamp: u64 },
    /// Nothing had to change; `place` is the log's length.
    Same { place: u64 },
    /// Nothing changed; `place` is the log's length.
    Refused { why: BoardRefusal, place: u64 },
}

/// Why a call has no reply.
#[derive(Clone, Copy, Debug, PartialEq, Eq)]
pub enum CallFault {
    /// The disk failed while the transition was stored. It isn't acknowledged, and may show after a
    /// stop; its item stands at `place`.
    Disk { place: u64 },
    /// Nothing was done.
    OutOfMemory,
}
