//! What the calls of a pair answer. A place is a position in the primary's log of this opening.
use bbs_model::Reply;

/// The answer of a pair to a call.
#[derive(Clone, Copy, Debug, PartialEq, Eq)]
pub enum PairReply {
    /// The primary's own. If it is `Ok`, the standby has stored the command too.
    Reply(Reply),
    /// A greater number was shown before, and nothing was done.
    StaleFence { greatest: u64 },
}

/// Why a call of a pair has no reply.
#[derive(Clone, Copy, Debug, PartialEq, Eq)]
pub enum PairFault {
    /// The primary's disk failed while the command was stored. Its item in doubt stands at `place`. The
    /// standby wasn't asked for it.
    Disk { place: u64 },
    /// The standby's disk failed while it stored what it lacked, and lacks still. The primary wasn't
    /// called; `place` is the length of its log.
    StandbyDisk { place: u64 },
    /// The primary has stored the command at `place`. The standby's disk failed while it did the same:
    /// the command is missing there, and the next call begins with it.
    Behind { place: u64 },
    /// The command was done nowhere. The standby may have stored what it lacked.
    OutOfMemory,
}

/// Why two boards don't become a pair.
#[derive(Clone, Copy, Debug, PartialEq, Eq)]
pub enum StartRefusal {
    /// Their rows differ. These are the numbers of transitions in the life of each.
    Unequal { primary: u64, standby: u64 },
    /// The rows couldn't be compared.
    OutOfMemory,
}

/// The number of a take-over isn't above the greatest one that was shown.
#[derive(Clone, Copy, Debug, PartialEq, Eq)]
pub struct StaleFence {
    pub greatest: u64,
}
