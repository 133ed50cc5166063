//! What a dump holds, and what is asked of it.
use diego_names::List;
use dump_lines::{ActualRow, CellState, DesiredRow, Place, Question, TaskRow};

/// A dump and what is asked of it, in the order of the lines.
#[derive(Debug, Drop)]
pub struct Dump {
    pub counts: LineCounts,
    pub states: List<CellState>,
    /// The cells that are registered, with or without a state.
    pub listed: List<Place>,
    pub tasks: List<TaskRow>,
    pub desired: List<DesiredRow>,
    /// The rows that are ORDINARY. Others are counted and passed over.
    pub actual: List<ActualRow>,
    pub questions: List<Asked>,
}

/// How many lines there are of each kind. Questions aren't counted.
#[derive(Clone, Copy, Debug, PartialEq, Eq)]
pub struct LineCounts {
    /// Those that aren't ORDINARY too.
    pub actual: u32,
    /// Cells that are listed.
    pub cells: u32,
    pub desired: u32,
    pub domains: u32,
    pub states: u32,
    pub tasks: u32,
}

/// A question and its line.
#[derive(Debug, Drop)]
pub struct Asked {
    /// Counts from 1; blank lines are counted.
    pub line: u32,
    pub question: Question,
}
