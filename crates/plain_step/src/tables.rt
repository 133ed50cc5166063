//! The tables of a board made anew by plain scans, for rows of each kind.
ghost use Rattle.std.specs.Prelude.{◌≡◌, ◌≤◌, ◌++◌, length, take, drop, IfOk, OnOk};
ghost use Rattle.std.specs.List.{position, position_or_len};
ghost use Rattle.std.specs.Ordering.{is_le};
ghost use Rattle.row_tables.specs.Table.{put_row, without_row};

use bbs_model::Rowed;
use diego_names::{List, OutOfMemory};
use std::alloc::Global;

/// The rows but for the one at a key.
pub fn without<X: Rowed>(alloc: Global, rows: &[X], key: &X::Key) -> Result<List<X>, OutOfMemory>
    ensures { IfOk result (λ left. left ≡ without_row X.Key.cmp X.key key.now rows.now) }
{
    let mut left = List::new(alloc);
    for row in rows {
        if key.cmp(&row.key()).is_ne() {
            left.push(*row)?;
        }
    }
    Ok(left)
}

/// The rows with this one in the place of the one at its key, if there is one.
pub fn with<X: Rowed>(alloc: Global, rows: &[X], row: X) -> Result<List<X>, OutOfMemory>
    ensures { IfOk result (λ all. all ≡ put_row X.Key.cmp X.key row rows.now) }
{
    let key = row.key();
    let (below, rest) = rows.split_at(rows_below(rows, &key));
    let mut all = copied(alloc, below)?;
    all.push(row)?;
    append(&mut all, above(rest, &key))?;
    Ok(all)
}

/// How many rows stand before the place of a key.
fn rows_below<X: Rowed>(rows: &[X], key: &X::Key) -> usize
    ensures place { result ≡ position_or_len (λ x. is_le (X.Key.cmp key.now (X.key x))) rows.now }
    ensures within { result ≤ length rows.now }
{
    first_from(rows, key).unwrap_or(rows.len())
}

/// The place of the first row at a key or above it.
fn first_from<X: Rowed>(rows: &[X], key: &X::Key) -> Option<usize>
    ensures { result ≡ position (λ x. is_le (X.Key.cmp key.now (X.key x))) rows.now }
{
    rows.iter().position(|row| key.cmp(&row.key()).is_le())
}

/// Rows without the first one where that stands at a key.
fn above<'a, X: Rowed>(rows: &'a [X], key: &X::Key) -> &'a [X]
    ensures { result.now ≡ without_row X.Key.cmp X.key key.now (take 1 rows.now) ++ drop 1 rows.now }
{
    match rows.first() {
        Some(row) if key.cmp(&row.key()).is_eq() => &rows[1..],
        _ => rows,
    }
}

/// The same rows.
pub fn copied<X: Rowed>(alloc: Global, rows: &[X]) -> Result<List<X>, OutOfMemory>
    ensures { IfOk result (λ all. all ≡ rows.now) }
{
    let mut all = List::new(alloc);
    append(&mut all, rows)?;
    Ok(all)
}

/// Adds rows at the end. Where memory runs out, only some of them are there.
fn append<X: Rowed>(all: &mut List<X>, rows: &[X]) -> Result<(), OutOfMemory>
    ensures { OnOk result (all.new ≡ all.old ++ rows.entry.now) }
{
    for row in rows {
        all.push(*row)?;
    }
    Ok(())
}
