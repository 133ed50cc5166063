//! The lines that tell a row, and what became of one.
ghost use Rattle.std.specs.Prelude.{◌≡◌, IfOk, OnOk};
ghost use Rattle.record_print.specs.Printed.{event_data, line_text, record_data};
ghost use Rattle.line_writing.specs.Writing.{AddsValue};

use crate::rows::put_row;
use crate::word::{change_word, table_word};
use bbs_model::{Event, Row};
use json::Writer;
use line_writing::{begin, end, line_begun, line_ended, put_text};
use std::alloc::{AllocError, Global};

/// An event of the board.
pub fn event_text(alloc: Global, event: &Event) -> Result<Vec<u8>, AllocError>
    ensures { IfOk result (λ v. v.items ≡ line_text (event_data event.now)) }
{
    let mut line = line_begun(alloc)?;
    put_event(&mut line, alloc, event)?;
    line_ended(line)
}

fn put_event(line: &mut Writer, alloc: Global, event: &Event) -> Result<(), AllocError>
    ensures { OnOk result (AddsValue line.old line.new (event_data event.now)) }
{
    begin(line)?;
    put_text(line, "event", change_word(event.change))?;
    put_row(line, alloc, &event.row)?;
    put_text(line, "table", table_word(&event.row))?;
    end(line)
}

/// A row of the board.
pub fn row_text(alloc: Global, row: &Row) -> Result<Vec<u8>, AllocError>
    ensures { IfOk result (λ v. v.items ≡ line_text (record_data row.now)) }
{
    let mut line = line_begun(alloc)?;
    put_record(&mut line, alloc, row)?;
    line_ended(line)
}

fn put_record(line: &mut Writer, alloc: Global, row: &Row) -> Result<(), AllocError>
    ensures { OnOk result (AddsValue line.old line.new (record_data row.now)) }
{
    begin(line)?;
    put_row(line, alloc, row)?;
    put_text(line, "table", table_word(row))?;
    end(line)
}
