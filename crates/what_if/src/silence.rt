//! The cells that are listed and told no state, and what rows say stands there.
ghost use Rattle.std.specs.Prelude.{◌≡◌, not, filter, filter_map, map, IfOk};
ghost use Rattle.std.specs.HashSet.{contains};
ghost use Rattle.auctioneer.specs.Stands.{same_name};
ghost use Rattle.what_if.specs.Places.{silent_stay_by, stay_by, IsPlaces};
ghost use Rattle.what_if.specs.Sites.{has_crashed, has_started, silent_of, silent_stay, stay_on};

use crate::cells::set_of;
use crate::site::Stay;
use diego_names::{Key, Name, OutOfMemory};
use dump_lines::{ActualRow, CellState, Place, RowState};
use dump_reader::Dump;
use std::alloc::Global;
use std::collections::{HashMap, HashSet};

/// The cells that told their state, in the order of their lines.
pub fn told_cells(alloc: Global, states: &[CellState]) -> Result<Vec<Name>, OutOfMemory>
    ensures { IfOk result (λ cells. cells.items ≡ map (λ s. s.place.cell) states.now) }
{
    let cells = states.iter().map(|state| state.place.cell).collect(alloc)?;
    Ok(cells)
}

// The places outside these cells.
fn places_outside(
    alloc: Global,
    places: &[Place],
    cells: &HashSet<Name>,
) -> Result<Vec<Place>, OutOfMemory>
    ensures { IfOk result (λ list. list.items
        ≡ filter (λ p. not (contains same_name cells.now p.cell)) places.now) }
{
    let list = places
        .iter()
        .filter(|place| !cells.contains(&place.cell))
        .copied()
        .collect(alloc)?;
    Ok(list)
}

/// The cells that are listed and told no state.
pub fn silent_of(alloc: Global, dump: &Dump) -> Result<Vec<Place>, OutOfMemory>
    ensures { IfOk result (λ places. places.items ≡ silent_of dump.now) }
{
    let told = told_cells(alloc, dump.states.items())?;
    let cells = set_of(alloc, &told)?;
    let list = places_outside(alloc, dump.listed.items(), &cells)?;
    Ok(list)
}

/// Whether a row in this state has a container.
pub fn has_started(state: &RowState) -> bool
    ensures { result ≡ has_started state.now }
{
    match state {
        RowState::Claimed | RowState::Running => true,
        RowState::Unclaimed | RowState::Crashed => false,
    }
}

// Whether a row in this state has crashed.
pub(crate) fn has_crashed(state: &RowState) -> bool
    ensures { result ≡ has_crashed state.now }
{
    match state {
        RowState::Crashed => true,
        RowState::Unclaimed | RowState::Claimed | RowState::Running => false,
    }
}

// Of each cell its place, of two the first.
#[derive(Drop)]
pub(crate) struct Places {
    places: HashMap<Name, Place>,
}

impl Places {
    fn of(alloc: Global, list: &[Place]) -> Result<Places, OutOfMemory>
        ensures { IfOk result (λ places. IsPlaces list.now places) }
    {
        let mut places = HashMap::new(alloc);
        let mut at = list.len();
        while at > 0 {
            at -= 1;
            let place = list[at];
            places.insert(place.cell, place)?;
        }
        Ok(Places { places })
    }
}

fn stay_on(key: Key, place: &Place) -> Stay
    ensures { result ≡ stay_on key place.now }
{
    Stay {
        key,
        cell: place.cell,
        zone: place.zone,
    }
}

// Where the row says that its instance stands, if that is a silent cell.
fn stay_of(places: &Places, row: &ActualRow) -> Option<Stay>
    ensures { result ≡ stay_by places.now row.now }
{
    match row.cell {
        Some(cell) => match places.places.get(&cell) {
            Some(place) => Some(stay_on(row.instance, place)),
            None => None,
        },
        None => None,
    }
}

// The same, if the row is claimed or running.
fn silent_stay(places: &Places, row: &ActualRow) -> Option<Stay>
    ensures { result ≡ silent_stay_by places.now row.now }
{
    if has_started(&row.state) {
        stay_of(places, row)
    } else {
        None
    }
}

fn stays_by(alloc: Global, places: &Places, rows: &[ActualRow]) -> Result<Vec<Stay>, OutOfMemory>
    ensures { IfOk result (λ stays. stays.items ≡ filter_map (silent_stay_by places.now) rows.now) }
{
    let stays = rows
        .iter()
        .filter_map(|row| silent_stay(places, row))
        .collect(alloc)?;
    Ok(stays)
}

// Where rows say that instances stand on the silent cells.
pub(crate) fn silent_stays(
    alloc: Global,
    silent: &[Place],
    rows: &[ActualRow],
) -> Result<Vec<Stay>, OutOfMemory>
    ensures { IfOk result (λ stays. stays.items ≡ filter_map (silent_stay silent.now) rows.now) }
{
    let places = Places::of(alloc, silent)?;
    let stays = stays_by(alloc, &places, rows)?;
    Ok(stays)
}
