//! The batches in which an update empties cells.
ghost use Rattle.std.specs.Prelude.{◌≡◌, ◌∷◌, ◌++◌, List, IfOk, OnOk};
ghost use Rattle.cell_drains.specs.Batches.{batches, batches_from, begun_with, takes};
ghost use Rattle.cell_drains.specs.declared.seats.Seat.{Seat as ASeat};

use crate::seats::Seat;
use diego_names::{List, Name, OutOfMemory};
use std::alloc::Global;
use std::mem;

// Cells of one zone and one tag that are emptied together.
#[derive(Drop)]
pub(crate) struct Batch {
    pub(crate) zone: Name,
    pub(crate) tag: Option<Name>,
    pub(crate) cells: List<Name>,
}

// A batch of this cell alone.
fn begun_with(alloc: Global, seat: &Seat) -> Result<Batch, OutOfMemory>
    ensures { IfOk result (λ batch. batch ≡ begun_with seat.now) }
{
    let mut cells = List::new(alloc);
    cells.push(seat.cell)?;
    Ok(Batch {
        zone: seat.zone,
        tag: seat.tag,
        cells,
    })
}

// Whether the batch may have the cell too: it has fewer than so many, of the cell's zone and tag.
fn takes(most: u32, batch: &Batch, seat: &Seat) -> bool
    ensures { result ≡ takes most batch.now seat.now }
{
    (batch.cells.len() as u64) < u64::from(most) && batch.zone == seat.zone && batch.tag == seat.tag
}

// The cell joins the batch, or the batch is done and another begins with the cell.
fn add_cell(
    alloc: Global,
    most: u32,
    done: &mut Vec<Batch>,
    batch: &mut Batch,
    seat: &Seat,
) -> Result<(), OutOfMemory>
    ensures { OnOk result ((rest : List ASeat) →
        done.new.items ++ batches_from most batch.new rest
        ≡ done.old.items ++ batches_from most batch.old (seat.now ∷ rest)) }
{
    if takes(most, batch, seat) {
        batch.cells.push(seat.cell)?;
        return Ok(());
    }
    let next = begun_with(alloc, seat)?;
    done.push(mem::replace(batch, next))?;
    Ok(())
}

// The batches of the cells, the first of which is begun.
fn batches_from(
    alloc: Global,
    most: u32,
    first: Batch,
    cells: &[Seat],
) -> Result<Vec<Batch>, OutOfMemory>
    ensures { IfOk result (λ made. made.items ≡ batches_from most first cells.now) }
{
    let mut done = Vec::new(alloc);
    let mut batch = first;
    for seat in cells {
        add_cell(alloc, most, &mut done, &mut batch, seat)?;
    }
    done.push(batch)?;
    Ok(done)
}

// The cells in their order, cut into batches of one zone and one tag, with at most so many cells and
// at least one.
pub(crate) fn batches(alloc: Global, most: u32, cells: &[Seat]) -> Result<Vec<Batch>, OutOfMemory>
    ensures { IfOk result (λ made. made.items ≡ batches most cells.now) }
{
    match cells.split_first() {
        None => Ok(Vec::new(alloc)),
        Some((seat, rest)) => {
            let first = begun_with(alloc, seat)?;
            batches_from(alloc, most, first, rest)
        }
    }
}
