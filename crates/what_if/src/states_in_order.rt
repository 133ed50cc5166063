//! The states of cells by the names of these.
ghost use Rattle.std.specs.Prelude.{◌≡◌, ◌<◌, map, length, IfOk};
ghost use Rattle.std.specs.List.{All};
ghost use Rattle.what_if.specs.Marks.{order_of, placed_from};

use crate::tables::table_of;
use diego_names::{Name, OutOfMemory};
use dump_lines::CellState;
use std::alloc::Global;

// Each cell with its place among the states.
fn cells_with_places(alloc: Global, states: &[CellState]) -> Result<Vec<(Name, usize)>, OutOfMemory>
    ensures { IfOk result (λ list. list.items ≡ placed_from 0 states.now) }
{
    let mut list = Vec::new(alloc);
    for at in 0..states.len() {
        list.push((states[at].place.cell, at))?;
    }
    Ok(list)
}

// The places of the states in the order of their cells.
pub(crate) fn states_in_order(
    alloc: Global,
    states: &[CellState],
) -> Result<Vec<usize>, OutOfMemory>
    ensures order { IfOk result (λ places. places.items ≡ order_of states.now) }
    ensures inside { IfOk result (λ places. All (λ at. at < length states.now) places.items) }
{
    let list = cells_with_places(alloc, states)?;
    let places = table_of(alloc, &list)?;
    Ok(places)
}
