//! A whole dump of a foundation and what is asked of it, or the first faulty line.
#![tactic(auto)]

mod answerable;
mod dump;
mod fault;
mod growing;
mod names;
mod reader;
mod repeats;
mod seen;
mod text_lines;

pub use dump::{Asked, Dump, LineCounts};
pub use dump_lines::{
    ActualRow, CellState, Demand, DesiredRow, Each, InstanceOnCell, LineFault, Place, Question,
    RowState, TaskOnCell, TaskRow, TurnOrder,
};
pub use fault::{DumpError, DumpFault};
pub use reader::read_dump;
