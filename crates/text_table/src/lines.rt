//! The line of a row.
ghost use Rattle.std.specs.Prelude.{◌≡◌, ◌≤◌, ◌++◌, IfOk, OnOk, length, take};
ghost use Rattle.text_table.specs.Layout.{filled_from, gap, padded, row_line, spaces, trimmed};
ghost use Rattle.text_table.specs.Texts.{entries_of};

use crate::columns::{Column, entry};
use crate::table::Side;
use std::alloc::{AllocError, Global};

fn add_spaces(text: &mut Vec<u8>, count: usize) -> Result<(), AllocError>
    ensures { OnOk result (text.new.items ≡ text.old.items ++ spaces count) }
{
    for _at in 0..count {
        text.push(b' ')?;
    }
    Ok(())
}

fn add_gap(text: &mut Vec<u8>, at: usize) -> Result<(), AllocError>
    ensures { OnOk result (text.new.items ≡ text.old.items ++ gap at) }
{
    if at == 0 {
        return Ok(());
    }
    add_spaces(text, 2)
}

fn add_padded(text: &mut Vec<u8>, column: Column, entry: &[u8]) -> Result<(), AllocError>
    ensures { OnOk result (text.new.items ≡ text.old.items
        ++ padded column.side column.width entry.now) }
{
    let rest = column.width.saturating_sub(entry.len());
    match column.side {
        Side::Left => {
            text.extend_from_slice(entry)?;
            add_spaces(text, rest)
        }
        Side::Right => {
            add_spaces(text, rest)?;
            text.extend_from_slice(entry)
        }
    }
}

// A row's entries, each in its column.
fn filled(alloc: Global, columns: &[Column], row: &[String]) -> Result<Vec<u8>, AllocError>
    ensures { IfOk result (λ text. text.items ≡ filled_from 0 columns.now (entries_of row.now)) }
{
    let mut text = Vec::new(alloc);
    for (at, column) in columns.iter().enumerate() {
        add_gap(&mut text, at)?;
        add_padded(&mut text, *column, entry(row, at))?;
    }
    Ok(text)
}

// How long a text is without the spaces at its end.
fn trimmed_length(text: &[u8]) -> usize
    ensures within { result ≤ length text.now }
    ensures trimmed { take result text.now ≡ trimmed text.now }
{
    let mut end = text.len();
    while end > 0 {
        if text[end - 1] != b' ' {
            return end;
        }
        end -= 1;
    }
    0
}

/// The line of a row, behind what `text` has.
pub(crate) fn add_line(
    text: &mut Vec<u8>,
    alloc: Global,
    columns: &[Column],
    row: &[String],
) -> Result<(), AllocError>
    ensures { OnOk result (text.new.items ≡ text.old.items
        ++ row_line columns.now (entries_of row.now)) }
{
    let line = filled(alloc, columns, row)?;
    let end = trimmed_length(&line);
    text.extend_from_slice(&line[..end])?;
    text.push(b'\n')?;
    Ok(())
}
