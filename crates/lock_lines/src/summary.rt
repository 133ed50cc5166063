//! The last line of a run of lock commands.
ghost use Rattle.std.specs.Prelude.{◌≡◌, IfOk, OnOk};
ghost use Rattle.line_writing.specs.Writing.{AddsValue};
ghost use Rattle.lock_lines.specs.Printed.{summary_data, summary_line};

use json::Writer;
use line_writing::{begin, end, line_begun, line_ended, put_number};
use std::alloc::{AllocError, Global};

/// How many commands of the script changed the locket, how many are in doubt since the disk
/// failed, and the fence that was given last in the locket's life.
pub fn summary_text(alloc: Global, done: u64, doubts: u64, last: u64) -> Result<Vec<u8>, AllocError>
    ensures { IfOk result (λ text. text.items ≡ summary_line done doubts last) }
{
    let mut text = line_begun(alloc)?;
    put_summary(&mut text, done, doubts, last)?;
    line_ended(text)
}

fn put_summary(text: &mut Writer, done: u64, doubts: u64, last: u64) -> Result<(), AllocError>
    ensures { OnOk result (AddsValue text.old text.new (summary_data done doubts last)) }
{
    begin(text)?;
    put_number(text, "done", done)?;
    put_number(text, "doubts", doubts)?;
    put_number(text, "last", last)?;
    end(text)
}
