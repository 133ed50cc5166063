use crash_backoff::Moment;
use diego_names::Name;

/// What a caller asks of a locket, at a moment that it names.
#[derive(Clone, Copy, Debug, PartialEq, Eq)]
pub struct LockCommand {
    /// The caller's moment. Those of a locket's changes never fall.
    pub now: Moment,
    pub op: LockOp,
}

/// The kinds of command. Times to live are in seconds.
#[derive(Clone, Copy, Debug, PartialEq, Eq)]
pub enum LockOp {
    /// The owner wants the lease, with a fence of its own.
    Acquire { owner: Name, ttl: u32 },
    /// The holder of the lease with this fence wants it until `ttl` seconds from now.
    Renew { owner: Name, fence: u64, ttl: u32 },
    /// The holder of the lease with this fence gives it back.
    Release { owner: Name, fence: u64 },
}
