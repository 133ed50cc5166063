use crate::{Counts, DomainRow};
use cell_records::CellRow;
use lrp_records::{Actual, Desired};
use task_records::Task;

/// What a board has at the keys that a command names. A step depends on nothing else.
#[derive(Clone, Copy, Debug, PartialEq, Eq)]
pub struct Found {
    /// The row of the command's process.
    pub desired: Option<Desired>,
    /// The ORDINARY row of the command's instance.
    pub ordinary: Option<Actual>,
    /// Its EVACUATING row.
    pub evacuating: Option<Actual>,
    /// Its SUSPECT row.
    pub suspect: Option<Actual>,
    pub task: Option<Task>,
    /// The row of the cell that the command names, or on which the instance runs that it suspects.
    pub cell: Option<CellRow>,
    pub domain: Option<DomainRow>,
    pub counts: Counts,
    /// The number of transitions in the board's life.
    pub next: u64,
}
