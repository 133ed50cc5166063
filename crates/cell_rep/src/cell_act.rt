use cell_records::{Amounts, JobName};
use diego_names::{Key, Name};

/// What a cell does. Memory and disk are in MB, and a lease is given in seconds.
#[derive(Clone, Copy, Debug, PartialEq, Eq)]
pub enum CellAct {
    /// It begins anew: without containers, and, once the board has agreed, under a new epoch.
    Join {
        zone: Name,
        tag: Option<Name>,
        totals: Amounts,
        ttl: u32,
    },
    /// It renews its lease.
    Renew {
        ttl: u32,
    },
    /// It makes room for a job, and tells the board. A task runs at once for the board.
    Claim {
        job: JobName,
        memory: u32,
        disk: u32,
    },
    /// It makes room for an instance and runs it.
    Run {
        key: Key,
        memory: u32,
        disk: u32,
    },
    /// It runs what it has made room for: of the job that is named, or all of it.
    Up {
        job: Option<JobName>,
    },
    /// An instance ended by itself, which is a failure.
    Crash {
        key: Key,
    },
    /// A task ended.
    Finish {
        name: Name,
        failed: bool,
    },
    /// It tells the board again of each of its containers.
    Settle,
    /// It goes down, and all of its containers with it.
    Die,
}
