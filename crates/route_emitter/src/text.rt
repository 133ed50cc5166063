//! The line that tells what becomes of an entry.
ghost use Rattle.std.specs.Prelude.{◌≡◌, IfOk, OnOk};
ghost use Rattle.line_writing.specs.Line.{line_text};
ghost use Rattle.line_writing.specs.Writing.{AddsValue};
ghost use Rattle.route_emitter.specs.Lines.{change_word, route_data, route_line};

use crate::entry::RouteEntry;
use diego_names::OutOfMemory;
use json::Writer;
use line_writing::{begin, end, instance_text, line_begun, line_ended, put_number, put_text};
use std::alloc::{AllocError, Global};

/// The line of an entry that came into the table, or that left it.
pub fn route_text(alloc: Global, entry: &RouteEntry, register: bool) -> Result<Vec<u8>, OutOfMemory>
    ensures { IfOk result (λ text. text.items ≡ route_line register entry.now) }
{
    let mut line = line_begun(alloc)?;
    put_entry(&mut line, alloc, entry, register)?;
    Ok(line_ended(line)?)
}

fn put_entry(
    line: &mut Writer,
    alloc: Global,
    entry: &RouteEntry,
    register: bool,
) -> Result<(), AllocError>
    ensures { OnOk result (AddsValue line.old line.new (route_data register entry.now)) }
{
    begin(line)?;
    put_text(line, "cell", entry.cell.as_str())?;
    put_text(line, "change", change_word(register))?;
    put_number(line, "index", entry.index as u64)?;
    put_text(line, "instance", &instance_text(alloc, &entry.instance)?)?;
    put_number(line, "port", entry.port as u64)?;
    put_text(line, "process", entry.process.as_str())?;
    put_text(line, "route", entry.route.as_str())?;
    end(line)
}

fn change_word(register: bool) -> &'static str
    ensures { result.now ≡ change_word register }
{
    if register { "register" } else { "unregister" }
}
