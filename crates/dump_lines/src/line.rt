//! What a line is: first as JSON, then by its kind.
ghost use Rattle.std.specs.Prelude.{◌≡◌, IfOk};
ghost use Rattle.serde_json.specs.View.{view};
ghost use Rattle.dump_lines.specs.Facts.{IsLine};
ghost use Rattle.dump_lines.specs.Faults.{Gives};
ghost use Rattle.dump_lines.specs.Lines.{kind_of, line_as, line_in, line_of};

use crate::cell::{cell_state_in, place_in};
use crate::dump_line::{DumpLine, LineKind};
use crate::fault::{LineError, LineFault};
use crate::json::json_of;
use crate::members::has;
use crate::question_in::question_in;
use crate::rows_in::{actual_in, desired_in, task_in};
use serde_json::Value;
use std::alloc::Global;

/// Reads the bytes of one line, without its newline.
pub fn read_dump_line(alloc: Global, line: &[u8]) -> Result<DumpLine, LineError>
    ensures exact { Gives result (line_of line.now) }
    ensures facts { IfOk result IsLine }
{
    line_of(alloc, line)
}

#[tactic(auto, unfolding(crate::specs::Lines::line_of))]
fn line_of(alloc: Global, line: &[u8]) -> Result<DumpLine, LineError>
    ensures { Gives result (line_of line.now) }
{
    let value = json_of(alloc, line)?;
    line_as(alloc, &value)
}

// The kind of a line, by the members that it has.
fn kind_of(value: &Value) -> Option<LineKind>
    ensures { result ≡ kind_of (view value.now) }
{
    if has(value, "ask") {
        Some(LineKind::Question)
    } else if has(value, "TotalResources") {
        Some(LineKind::State)
    } else if has(value, "capacity") {
        Some(LineKind::Listed)
    } else if has(value, "task_guid") {
        Some(LineKind::Task)
    } else if has(value, "process_guid") && has(value, "instances") {
        Some(LineKind::Desired)
    } else if has(value, "process_guid") && has(value, "index") {
        Some(LineKind::Actual)
    } else if value.is_string() {
        Some(LineKind::Domain)
    } else {
        None
    }
}

#[tactic(auto, unfolding(crate::specs::Lines::line_in))]
fn line_in(alloc: Global, kind: LineKind, value: &Value) -> Result<DumpLine, LineError>
    ensures { Gives result (line_in kind (view value.now)) }
{
    match kind {
        LineKind::Question => Ok(DumpLine::Asks(question_in(alloc, value)??)),
        LineKind::State => Ok(DumpLine::State(cell_state_in(alloc, value)?)),
        LineKind::Listed => Ok(DumpLine::Listed(place_in(value, "zone")?)),
        LineKind::Task => Ok(DumpLine::Task(task_in(value)?)),
        LineKind::Desired => Ok(DumpLine::Desired(desired_in(value)?)),
        LineKind::Actual => Ok(DumpLine::Actual(actual_in(value)?)),
        LineKind::Domain => Ok(DumpLine::Domain),
    }
}

#[tactic(auto, unfolding(crate::specs::Lines::line_as))]
fn line_as(alloc: Global, value: &Value) -> Result<DumpLine, LineError>
    ensures { Gives result (line_as (view value.now)) }
{
    match kind_of(value) {
        Some(kind) => line_in(alloc, kind, value),
        None => Err(LineError::Faulty(LineFault::BadShape)),
    }
}
