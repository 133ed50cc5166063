//! How wide each column is.
ghost use Rattle.std.specs.Prelude.{◌≡◌, IfOk};
ghost use Rattle.text_table.specs.Layout.{columns_from, entry_of, width_of};
ghost use Rattle.text_table.specs.Texts.{entries_of, texts_of};

use crate::table::Side;
use std::alloc::{AllocError, Global};

/// A column as it is written: the side on which its entries stand, and how many bytes each takes.
#[derive(Clone, Copy)]
pub(crate) struct Column {
    pub(crate) side: Side,
    pub(crate) width: usize,
}

/// The entry of a row in a column, counted from 0; an empty one where the row ends before it.
pub(crate) fn entry(row: &[String], at: usize) -> &[u8]
    ensures { result.now ≡ entry_of (entries_of row.now) at }
{
    match row.get(at) {
        Some(entry) => entry.as_bytes(),
        None => &[],
    }
}

fn width(rows: &[Vec<String>], at: usize) -> usize
    ensures { result ≡ width_of (texts_of rows.now) at }
{
    let mut width = 0;
    for row in rows {
        width = width.max(entry(row, at).len());
    }
    width
}

/// The columns of a table with these rows.
pub(crate) fn columns_of(
    alloc: Global,
    sides: &[Side],
    rows: &[Vec<String>],
) -> Result<Vec<Column>, AllocError>
    ensures { IfOk result (λ columns.
        columns.items ≡ columns_from 0 sides.now (texts_of rows.now)) }
{
    let mut columns = Vec::new(alloc);
    for (at, side) in sides.iter().enumerate() {
        columns.push(Column {
            side: *side,
            width: width(rows, at),
        })?;
    }
    Ok(columns)
}
