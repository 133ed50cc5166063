//! How many instances of a process stand in a zone or on a cell.
ghost use Rattle.std.specs.Prelude.{◌≡◌, ℕ, List, map, IfOk};
ghost use Rattle.site_spread.specs.Spots.{cell_spot, counted_at, zone_spot};
ghost use Rattle.site_spread.specs.Spread.{instances_in, instances_on};

use crate::counts::{count_in, counts_of};
use diego_names::{Name, OutOfMemory};
use std::alloc::Global;
use std::collections::HashMap;
use what_if::Stay;

// A process and a place of it: a zone or a cell.
#[derive(Clone, Copy, PartialEq, Eq, Hash)]
pub(crate) struct Spot {
    pub(crate) process: Name,
    pub(crate) place: Name,
}

fn zone_spots(alloc: Global, stays: &[Stay]) -> Result<Vec<Spot>, OutOfMemory>
    ensures { IfOk result (λ spots. spots.items ≡ map zone_spot stays.now) }
{
    let spots = stays
        .iter()
        .map(|stay| Spot {
            process: stay.key.process,
            place: stay.zone,
        })
        .collect(alloc)?;
    Ok(spots)
}

fn cell_spots(alloc: Global, stays: &[Stay]) -> Result<Vec<Spot>, OutOfMemory>
    ensures { IfOk result (λ spots. spots.items ≡ map cell_spot stays.now) }
{
    let spots = stays
        .iter()
        .map(|stay| Spot {
            process: stay.key.process,
            place: stay.cell,
        })
        .collect(alloc)?;
    Ok(spots)
}

// How many instances of each process stand in each zone.
pub(crate) fn counts_in_zones(
    alloc: Global,
    stays: &[Stay],
) -> Result<HashMap<Spot, u64>, OutOfMemory>
    ensures { IfOk result (λ counts. (process : List ℕ) → (zone : List ℕ)
        → counted_at counts process zone ≡ instances_in stays.now process zone) }
{
    let spots = zone_spots(alloc, stays)?;
    let counts = counts_of(alloc, &spots)?;
    Ok(counts)
}

// How many of each stand on each cell.
pub(crate) fn counts_on_cells(
    alloc: Global,
    stays: &[Stay],
) -> Result<HashMap<Spot, u64>, OutOfMemory>
    ensures { IfOk result (λ counts. (process : List ℕ) → (cell : List ℕ)
        → counted_at counts process cell ≡ instances_on stays.now process cell) }
{
    let spots = cell_spots(alloc, stays)?;
    let counts = counts_of(alloc, &spots)?;
    Ok(counts)
}

// How many were counted of that process at that place.
pub(crate) fn counted_at(counts: &HashMap<Spot, u64>, process: &Name, place: &Name) -> u64
    ensures { result ≡ counted_at counts.now process.now place.now }
{
    let spot = Spot {
        process: *process,
        place: *place,
    };
    count_in(counts, &spot)
}
