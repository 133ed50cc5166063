use crate::DomainRow;
use cell_records::CellRow;
use diego_names::List;
use lrp_records::{Actual, Desired};
use task_records::Task;

/// What a board holds. The rows of each table stand in the order of their keys.
#[derive(Debug, Drop)]
pub struct Rows {
    /// The desired processes, in the order of their names.
    pub desired: List<Desired>,
    /// The actual rows, by key, and of one key ORDINARY, EVACUATING, SUSPECT.
    pub actual: List<Actual>,
    /// In the order of their names.
    pub tasks: List<Task>,
    /// In the order of their names.
    pub cells: List<CellRow>,
    /// In the order of their names.
    pub domains: List<DomainRow>,
    /// The number of transitions in the board's life, which is the stamp of the next one.
    pub next: u64,
}
