//! The last line of a run.
ghost use Rattle.std.specs.Prelude.{◌≡◌, IfOk, OnOk};
ghost use Rattle.record_print.specs.Printed.{line_text, summary_data};
ghost use Rattle.line_writing.specs.Writing.{AddsValue};

use json::Writer;
use line_writing::{begin, end, line_begun, line_ended, put_number};
use std::alloc::{AllocError, Global};

/// The counts of a run.
#[derive(Clone, Copy, Debug, PartialEq, Eq)]
pub struct Summary {
    /// Acknowledged transitions of this run.
    pub done: u64,
    /// Transitions of this run that the disk failed to store.
    pub doubts: u64,
    /// Transitions in the board's life.
    pub next: u64,
    /// Phases that ran.
    pub phases: u64,
}

/// The counts of a run, which end its text.
pub fn summary_text(alloc: Global, summary: Summary) -> Result<Vec<u8>, AllocError>
    ensures { IfOk result (λ v. v.items ≡ line_text (summary_data summary)) }
{
    let mut line = line_begun(alloc)?;
    put_summary(&mut line, summary)?;
    line_ended(line)
}

fn put_summary(line: &mut Writer, summary: Summary) -> Result<(), AllocError>
    ensures { OnOk result (AddsValue line.old line.new (summary_data summary)) }
{
    begin(line)?;
    put_number(line, "done", summary.done)?;
    put_number(line, "doubts", summary.doubts)?;
    put_number(line, "next", summary.next)?;
    put_number(line, "phases", summary.phases)?;
    end(line)
}
