use crate::state::Lease;
use crash_backoff::Moment;
use diego_names::Name;

/// Why a command changes nothing.
#[derive(Clone, Copy, Debug, PartialEq, Eq)]
pub enum LockRefusal {
    /// The moment is before that of the last change, `seen`.
    Past { seen: Moment },
    /// Another owner holds the lease.
    Held { by: Name, until: u64 },
    /// The caller has not the lease that was given last, or that was released. `last` is its fence.
    NotHolder { last: u64 },
    /// The lease has run out, and can't be renewed.
    Expired { until: u64 },
    /// The locket has made its 1,000,000 changes.
    LockFull,
}

/// The locket's answer to a call.
#[derive(Clone, Copy, Debug, PartialEq, Eq)]
pub enum LockReply {
    /// The lease was given or renewed, and that is acknowledged.
    Ok { lease: Lease },
    /// The caller holds this lease already, and nothing had to change.
    Same { lease: Lease },
    /// The lease with this fence was given back, and that is acknowledged.
    Released { fence: u64 },
    /// Nothing changed.
    Refused(LockRefusal),
}

/// Why a call has no reply.
#[derive(Clone, Copy, Debug, PartialEq, Eq)]
pub enum LockFault {
    /// The disk failed while the change was stored. It isn't acknowledged, and may show after a stop.
    Disk,
    /// Nothing was done.
    OutOfMemory,
}
