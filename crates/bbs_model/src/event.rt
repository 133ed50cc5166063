use crate::DomainRow;
use cell_records::CellRow;
use lrp_records::{Actual, Desired};
use task_records::Task;

/// A row of one of the board's tables.
#[derive(Clone, Copy, Debug, PartialEq, Eq)]
pub enum Row {
    /// A process that is to run.
    Desired(Desired),
    /// What is actual of an instance of a process.
    Actual(Actual),
    Task(Task),
    Cell(CellRow),
    Domain(DomainRow),
}

/// What became of a row.
#[derive(Clone, Copy, Debug, PartialEq, Eq)]
pub enum Change {
    /// There was none of its key before.
    Created,
    /// It took the place of one of its key.
    Changed,
    /// There is none of its key now.
    Removed,
}

/// A change of one row.
#[derive(Clone, Copy, Debug, PartialEq, Eq)]
pub struct Event {
    /// What became of it.
    pub change: Change,
    /// The row, as it was before a removal and as it is after the others.
    pub row: Row,
}

/// The changes that one transition makes: one, or two where an instance evacuates or
/// is suspected.
#[derive(Clone, Copy, Debug, PartialEq, Eq)]
pub struct Events {
    pub first: Event,
    pub second: Option<Event>,
}
