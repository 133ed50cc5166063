use cell_records::Amounts;
use crash_backoff::Moment;
use diego_names::{Instance, Key, Name};
use lrp_records::Desired;

/// What a caller asks of the board, at a moment that it names.
#[derive(Clone, Copy, Debug, PartialEq, Eq)]
pub struct Command {
    /// The caller's moment, from which the times in rows are taken.
    pub now: Moment,
    pub op: Op,
}

/// The kinds of command. An instance is told apart from others by the epoch of its cell and its
/// number there; a cell proves by its epoch that it is the one that joined.
#[derive(Clone, Copy, Debug, PartialEq, Eq)]
pub enum Op {
    /// A client wants a process to run.
    Desire {
        desired: Desired,
    },
    /// A client wants a process to run in so many instances, and to be reached so.
    Update {
        process: Name,
        instances: u32,
        route: Option<Name>,
        port: u16,
    },
    /// A client wants a process no more. Its actual rows stay until convergence retires them.
    Undesire {
        process: Name,
    },
    /// A wanted instance that has no ORDINARY row gets one, UNCLAIMED.
    Make {
        key: Key,
    },
    /// A cell has made room for an instance.
    Claim {
        key: Key,
        instance: Instance,
        cell: Name,
    },
    /// A cell runs an instance.
    Start {
        key: Key,
        instance: Instance,
        cell: Name,
    },
    /// A container ended by itself.
    Crash {
        key: Key,
        instance: Instance,
    },
    /// A container is given back.
    Unclaim {
        key: Key,
        instance: Instance,
    },
    /// A crashed instance is tried again.
    Restart {
        key: Key,
    },
    /// An ORDINARY row is dropped: one that no container has, or the one that this container has.
    Remove {
        key: Key,
        instance: Option<Instance>,
    },
    /// No cell could take an instance.
    PlaceFail {
        key: Key,
    },
    /// A cell that is being emptied keeps its running instance in an EVACUATING row, and the
    /// ORDINARY row is placed anew.
    Evacuate {
        key: Key,
        instance: Instance,
    },
    /// An EVACUATING row is dropped.
    DropEvacuating {
        key: Key,
        instance: Instance,
    },
    /// A client wants a task to run once. Memory and disk are in MB.
    NewTask {
        name: Name,
        memory: u32,
        disk: u32,
        tag: Option<Name>,
    },
    /// A cell runs a task.
    StartTask {
        name: Name,
        instance: Instance,
        cell: Name,
    },
    /// A task's container ended.
    CompleteTask {
        name: Name,
        instance: Instance,
        failed: bool,
    },
    /// A task is given up, which counts as a failure.
    CancelTask {
        name: Name,
    },
    /// A client begins to take a task's outcome.
    ResolveTask {
        name: Name,
    },
    /// The client has taken it.
    DeleteTask {
        name: Name,
    },
    /// The client that began to take it did not end.
    KickTask {
        name: Name,
    },
    /// No client has taken it.
    ExpireTask {
        name: Name,
    },
    /// A cell joins, or joins anew. Its lease holds for `ttl` seconds.
    Join {
        cell: Name,
        zone: Name,
        tag: Option<Name>,
        totals: Amounts,
        ttl: u32,
    },
    /// A cell renews its lease for `ttl` seconds.
    Renew {
        cell: Name,
        epoch: u64,
        ttl: u32,
    },
    /// A cell is to be emptied.
    Drain {
        cell: Name,
        epoch: u64,
    },
    /// A cell whose lease ended is dropped.
    Vanish {
        cell: Name,
    },
    /// A client vouches for its list of processes in a domain, for `ttl` seconds, or for ever where
    /// that is 0.
    Fresh {
        domain: Name,
        ttl: u32,
    },
    /// A domain that isn't fresh any more is dropped.
    Forget {
        domain: Name,
    },
    /// A cell has gone silent: its running instance is kept in a SUSPECT row, and the ORDINARY row is
    /// placed anew.
    Suspect {
        key: Key,
        instance: Instance,
    },
    /// A SUSPECT row is dropped.
    DropSuspect {
        key: Key,
        instance: Instance,
    },
}
