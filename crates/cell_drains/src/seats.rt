//! The cells that an update empties, and the order in which they go.
ghost use Rattle.std.specs.Prelude.{◌≡◌, map, IfOk};
ghost use Rattle.cell_drains.specs.Seats.{as_named, by_seat, in_drain, seat_named, seat_of, seats};

use cell_records::Answer;
use diego_names::{List, Name, OutOfMemory};
use std::alloc::Global;
use what_if::{Site, table_of};

// A cell with its tag and its zone. What decides which goes first is the first of these in which two
// differ.
#[derive(Clone, Copy, PartialEq, Eq, PartialOrd, Ord)]
pub(crate) struct Seat {
    pub(crate) tag: Option<Name>,
    pub(crate) zone: Name,
    pub(crate) cell: Name,
}

fn seat_of(answer: &Answer) -> Seat
    ensures { result ≡ seat_of answer.now }
{
    Seat {
        tag: answer.tag,
        zone: answer.zone,
        cell: answer.cell,
    }
}

// The cells that told their state.
fn seats(alloc: Global, site: &Site) -> Result<Vec<Seat>, OutOfMemory>
    ensures { IfOk result (λ cells. cells.items ≡ seats site.now) }
{
    let cells = site.cells.items().iter().map(seat_of).collect(alloc)?;
    Ok(cells)
}

fn twice(alloc: Global, cells: &[Seat]) -> Result<Vec<(Seat, Seat)>, OutOfMemory>
    ensures { IfOk result (λ rows. rows.items ≡ map (λ s. (s, s)) cells.now) }
{
    let rows = cells.iter().map(|seat| (*seat, *seat)).collect(alloc)?;
    Ok(rows)
}

// By tag, zone and name.
fn by_seat(alloc: Global, cells: &[Seat]) -> Result<Vec<Seat>, OutOfMemory>
    ensures { IfOk result (λ made. made.items ≡ by_seat cells.now) }
{
    let rows = twice(alloc, cells)?;
    let made = table_of(alloc, &rows)?;
    Ok(made)
}

// The cell of that name, if it is one of them.
fn seat_named(cells: &[Seat], name: &Name) -> Option<Seat>
    ensures { result ≡ seat_named cells.now name.now }
{
    for seat in cells {
        if seat.cell == *name {
            return Some(*seat);
        }
    }
    None
}

// Those of them that are named, in the order of the names. It costs a look at each cell for each name.
fn as_named(alloc: Global, cells: &[Seat], names: &[Name]) -> Result<Vec<Seat>, OutOfMemory>
    ensures { IfOk result (λ found. found.items ≡ as_named cells.now names.now) }
{
    let found = names
        .iter()
        .filter_map(|name| seat_named(cells, name))
        .collect(alloc)?;
    Ok(found)
}

// The cells that are emptied, in the order in which they are named, else by tag, zone and name.
pub(crate) fn in_drain(
    alloc: Global,
    site: &Site,
    names: &Option<List<Name>>,
) -> Result<Vec<Seat>, OutOfMemory>
    ensures { IfOk result (λ cells. cells.items ≡ in_drain site.now names.now) }
{
    let cells = seats(alloc, site)?;
    match names {
        None => by_seat(alloc, cells.as_slice()),
        Some(list) => as_named(alloc, cells.as_slice(), list.items()),
    }
}
