//! One line of a dump of a foundation, or a question about it: what it is, or its first fault.
#![tactic(auto)]

mod cell;
mod cell_state;
mod demand;
mod dump_line;
mod fault;
mod json;
mod line;
mod listing;
mod members;
mod question;
mod question_in;
mod rows;
mod rows_in;
mod tags;
mod values;

pub use cell_state::{CellState, InstanceOnCell, Place, TaskOnCell};
pub use demand::Demand;
pub use dump_line::DumpLine;
pub use fault::{LineError, LineFault};
pub use line::read_dump_line;
pub use question::{Each, Question, TurnOrder};
pub use rows::{ActualRow, DesiredRow, RowState, TaskRow};

#[cfg(test)]
mod tests;
