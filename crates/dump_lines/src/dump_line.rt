use crate::cell_state::{CellState, Place};
use crate::question::Question;
use crate::rows::{ActualRow, DesiredRow, TaskRow};

/// What a line is.
#[derive(Debug, Drop)]
pub enum DumpLine {
    /// A question.
    Asks(Question),
    /// What a cell told of itself: a line of `cfdot cell-states`.
    State(CellState),
    /// A cell that is registered: a line of `cfdot cells`.
    Listed(Place),
    /// A line of `cfdot tasks`.
    Task(TaskRow),
    /// A line of `cfdot desired-lrp-scheduling-infos` or `cfdot desired-lrps`.
    Desired(DesiredRow),
    /// A line of `cfdot actual-lrps`.
    Actual(ActualRow),
    /// A line of `cfdot domains`, of which nothing is read.
    Domain,
}

/// The kind of a line: of two that it could be, the first.
#[derive(Clone, Copy)]
pub enum LineKind {
    Question,
    State,
    Listed,
    Task,
    Desired,
    Actual,
    Domain,
}
