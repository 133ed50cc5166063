//! Which rows the containers of a cell have.
ghost use Rattle.std.specs.Prelude.{◌≡◌, IfOk};
ghost use Rattle.std.specs.List.{filter_map};
ghost use Rattle.bbs_index.specs.Index.{place_on};

use diego_names::{Key, Name};
use lrp_records::{Actual, Presence};
use std::alloc::{AllocError, Global};

// The place of the row, if a container on that cell has it.
fn place_on(row: &Actual, cell: &Name) -> Option<(Key, Presence)>
    ensures { result ≡ place_on cell.now row.now }
{
    match row.state.cell() {
        Some(other) if *cell == other => Some(row.place()),
        _ => None,
    }
}

// The places of those rows that the cell's containers have.
pub(crate) fn places_on(
    alloc: Global,
    rows: &[Actual],
    cell: &Name,
) -> Result<Vec<(Key, Presence)>, AllocError>
    ensures { IfOk result (λ places. places.items ≡ filter_map (place_on cell.now) rows.now) }
{
    rows.iter()
        .filter_map(|row| place_on(row, cell))
        .collect(alloc)
}
