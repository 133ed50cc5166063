use lrp_records::LrpRefusal;
use task_records::TaskRefusal;

/// Why a command is refused. Nothing changes then.
#[derive(Clone, Copy, Debug, PartialEq, Eq)]
pub enum BoardRefusal {
    /// There is such a row.
    Exists,
    /// There is no such row.
    Unknown,
    /// The process isn't desired with so many instances.
    NotWanted,
    /// A limit of the board would be passed.
    TooMany {
        /// That limit: of the rows of a table, of a process's instances, or of all instances.
        limit: u32,
    },
    /// No cell of that name has joined.
    UnknownCell,
    /// The cell has joined anew since.
    StaleEpoch {
        /// The epoch of its row.
        now: u64,
    },
    /// The board has made as many transitions as it may make in its life.
    BoardFull,
    /// A lease has not ended: that of a cell, or of the word that vouches for a domain.
    LeaseHolds {
        /// The second at which it ends; 2^64 - 1 for one that never ends.
        until: u64,
    },
    /// The instance's row refuses the move.
    Lrp(LrpRefusal),
    /// The task's row refuses the move.
    Task(TaskRefusal),
}

/// What the step of a command comes to.
#[derive(Clone, Copy, Debug, PartialEq, Eq)]
pub enum Verdict {
    /// The rows change.
    Ok,
    /// The rows are already what the command asks for.
    Same,
    /// The command isn't legal, and nothing changes.
    Refused(BoardRefusal),
}
