//! The rows of a board are written as the head of an area.
ghost use Rattle.std.specs.Prelude.{◌≡◌, ◌+◌, ◌≤◌, ◌++◌, length, vec_len, vec_capacity, IfOk, OnOk, IsOk};
ghost use Rattle.std.specs.List.{flat_map, AllByRecursion};
ghost use Rattle.bbs_model.specs.Valid.{IsValid};
ghost use Rattle.head_codec.specs.Head.{counts, head_counts, head_spelled, FitsHead};

use crate::kept::HeadRow;
use bbs_codec::Fields;
use bbs_model::Rows;
use diego_names::OutOfMemory;
use std::alloc::Global;

/// How many transitions a board had, and how many rows each of its tables has: of desired and actual
/// rows, tasks, cells and domains.
pub type Counts = (u64, ((u32, u32), (u32, (u32, u32))));

/// The most bytes that the counts take, or a row of any table.
pub const ROW_BYTES: usize = 344;

/// Writes a value of few bytes behind what is written.
fn append<X: Fields>(out: &mut Vec<u8>, value: X) -> Result<(), OutOfMemory>
    requires { length (X.format.spelling value) ≤ 344 }
    ensures bytes { OnOk result (out.new.items ≡ out.old.items ++ X.format.spelling value) }
    ensures few { vec_len out.new ≤ vec_len out.old + 344 }
    ensures succeeds { vec_len out.old + 344 ≤ vec_capacity out.old → IsOk result }
    ensures kept { vec_capacity out.old ≤ vec_capacity out.new }
{
    let mut room = [0u8; ROW_BYTES];
    let len = value.put_at(&mut room, 0);
    out.extend_from_slice(&room[..len])?;
    Ok(())
}

/// Writes a row behind what is written, as version 2 has it. It takes no memory where there is room for `ROW_BYTES`.
pub fn append_row<X: HeadRow>(out: &mut Vec<u8>, row: &X) -> Result<(), OutOfMemory>
    ensures bytes { OnOk result (out.new.items
        ≡ out.old.items ++ X.format.spelling row.entry.now) }
    ensures fits { X.format.Fits row.entry.now }
    ensures few { vec_len out.new ≤ vec_len out.old + 344 }
    ensures succeeds { vec_len out.old + 344 ≤ vec_capacity out.old → IsOk result }
    ensures kept { vec_capacity out.old ≤ vec_capacity out.new }
{
    row.fits();
    row.is_short();
    append(out, *row)
}

/// Writes the front of a head of version 2, behind which the rows of its tables stand, one after the other. It
/// takes no memory where there is room for `ROW_BYTES`.
pub fn append_front(out: &mut Vec<u8>, front: Counts) -> Result<(), OutOfMemory>
    ensures bytes { OnOk result (out.new.items ≡ out.old.items ++ counts.spelling front) }
    ensures few { vec_len out.new ≤ vec_len out.old + 344 }
    ensures succeeds { vec_len out.old + 344 ≤ vec_capacity out.old → IsOk result }
    ensures kept { vec_capacity out.old ≤ vec_capacity out.new }
{
    append(out, front)
}

/// Writes the rows of a table, each behind the one before it.
fn append_rows<X: HeadRow>(out: &mut Vec<u8>, rows: &[X]) -> Result<(), OutOfMemory>
    ensures bytes { OnOk result (out.new.items
        ≡ out.old.items ++ flat_map X.format.spelling rows.entry.now) }
    ensures fits { OnOk result (AllByRecursion X.format.Fits rows.entry.now) }
{
    for row in rows {
        append_row(out, row)?;
    }
    Ok(())
}

/// What stands in front of the tables of these rows.
pub(crate) fn counts(rows: &Rows) -> Counts
    requires { IsValid rows.now }
    ensures { result ≡ head_counts rows.now }
{
    (
        rows.next,
        (
            (rows.desired.len() as u32, rows.actual.len() as u32),
            (
                rows.tasks.len() as u32,
                (rows.cells.len() as u32, rows.domains.len() as u32),
            ),
        ),
    )
}

/// The rows of a board in bytes, in version 2. Every board that a program can hold has a spelling.
pub fn write_head(alloc: Global, rows: &Rows) -> Result<Vec<u8>, OutOfMemory>
    requires { IsValid rows.now }
    ensures bytes { IfOk result (λ bytes. bytes.items ≡ head_spelled 2 rows.now) }
    ensures fits { IfOk result (λ bytes. FitsHead 2 rows.now) }
{
    let mut out = Vec::new(alloc);
    append_front(&mut out, counts(rows))?;
    append_rows(&mut out, rows.desired.items())?;
    append_rows(&mut out, rows.actual.items())?;
    append_rows(&mut out, rows.tasks.items())?;
    append_rows(&mut out, rows.cells.items())?;
    append_rows(&mut out, rows.domains.items())?;
    Ok(out)
}
