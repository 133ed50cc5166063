//! What a dump tells that is modelled otherwise.
ghost use Rattle.std.specs.Prelude.{◌≡◌, ℕ, ◌≤◌, ◌++◌, List, Some, ◌||◌, count_by, if◌then◌else◌, length, map, sum_by, IfOk};
ghost use Rattle.std.specs.HashSet.{contains};
ghost use Rattle.std.specs.List.{flat_map};
ghost use Rattle.auctioneer.specs.Stands.{same_name};
ghost use Rattle.diego_names.specs.declared.key.Key.{Key as AKey};
ghost use Rattle.dump_reader.specs.Facts.{IsDump};
ghost use Rattle.site_answers.specs.Notes.{instances_of, is_named, notes_of};
ghost use Rattle.site_answers.specs.Noting.{
  is_named_by,
  is_noted,
  is_of_no_cell_by,
  is_stray,
  strays_of,
};
ghost use Rattle.what_if.specs.Sites.{is_some_row};

use diego_names::{Key, Name, OutOfMemory};
use dump_lines::{ActualRow, CellState, DesiredRow, InstanceOnCell, Place};
use dump_reader::Dump;
use forecast_records::Notes;
use std::alloc::Global;
use std::collections::HashSet;
use what_if::{
    Wanted, has_started, is_some_row, key_of, key_set, proxy_of, set_of, silent_of, told_cells,
    wanted_of,
};

fn listed_cells(alloc: Global, places: &[Place]) -> Result<Vec<Name>, OutOfMemory>
    ensures { IfOk result (λ cells. cells.items ≡ map (λ p. p.cell) places.now) }
{
    let cells = places.iter().map(|place| place.cell).collect(alloc)?;
    Ok(cells)
}

// The cells that told their state, then those that are listed.
fn cells_told(alloc: Global, dump: &Dump) -> Result<Vec<Name>, OutOfMemory>
    ensures { IfOk result (λ cells. cells.items
        ≡ map (λ s. s.place.cell) dump.now.states ++ map (λ p. p.cell) dump.now.listed) }
{
    let mut cells = told_cells(alloc, dump.states.items())?;
    let mut listed = listed_cells(alloc, dump.listed.items())?;
    cells.append(&mut listed)?;
    Ok(cells)
}

// The cells that a line names.
fn named_cells(alloc: Global, dump: &Dump) -> Result<HashSet<Name>, OutOfMemory>
    ensures { IfOk result (λ named. (cell : List ℕ)
        → contains same_name named cell ≡ is_named dump.now (Some cell)) }
{
    let cells = cells_told(alloc, dump)?;
    let named = set_of(alloc, &cells)?;
    Ok(named)
}

fn is_named(named: &HashSet<Name>, cell: &Option<Name>) -> bool
    ensures { result ≡ is_named_by named.now cell.now }
{
    match cell {
        Some(name) => named.contains(name),
        None => false,
    }
}

// Whether the row is claimed or running on a cell that no line names.
fn is_of_no_cell(named: &HashSet<Name>, row: &ActualRow) -> bool
    ensures { result ≡ is_of_no_cell_by named.now row.now }
{
    has_started(&row.state) && !is_named(named, &row.cell)
}

fn rows_of_no_cell(named: &HashSet<Name>, rows: &[ActualRow]) -> u64
    ensures { result ≡ count_by (is_of_no_cell_by named.now) rows.now }
{
    rows.iter().filter(|row| is_of_no_cell(named, row)).count() as u64
}

fn keys_of(alloc: Global, wanted: &[Wanted]) -> Result<Vec<Key>, OutOfMemory>
    ensures { IfOk result (λ keys. keys.items ≡ map (λ w. w.key) wanted.now) }
{
    let keys = wanted.iter().map(|wanted| wanted.key).collect(alloc)?;
    Ok(keys)
}

// What is counted of the instances on cells.
#[derive(Clone, Copy)]
pub(crate) enum Noted<'a> {
    // Those that have not ended and are none of these.
    Strays(&'a HashSet<Key>),
    VolumeDrivers,
}

// Whether the instance is counted.
fn is_noted(noted: &Noted, instance: &InstanceOnCell) -> bool
    ensures { result ≡ is_noted noted.now instance.now }
{
    match noted {
        Noted::Strays(wanted) => !instance.ended && !wanted.contains(&key_of(instance)),
        Noted::VolumeDrivers => instance.has_volume_drivers,
    }
}

// How many of the cell's instances are counted.
fn noted_on(noted: &Noted, state: &CellState) -> u64
    ensures { result ≡ count_by (is_noted noted.now) state.now.instances }
{
    let instances = state.instances.items();
    instances
        .iter()
        .filter(|instance| is_noted(noted, instance))
        .count() as u64
}

// How many of all cells' instances are counted.
fn noted_in(noted: &Noted, states: &[CellState]) -> u64
    requires { sum_by (λ s. length s.instances) states.now ≤ 250000 }
    ensures value { result ≡ count_by (is_noted noted.now) (flat_map (λ s. s.instances) states.now) }
    ensures few { result ≤ 250000 }
{
    let mut count: u64 = 0;
    for state in states {
        count += noted_on(noted, state);
    }
    count
}

// The containers that have not ended, of none of these instances.
fn strays_in(alloc: Global, dump: &Dump, wanted: &[Wanted]) -> Result<u64, OutOfMemory>
    requires { IsDump dump.now }
    ensures { IfOk result (λ strays. strays
        ≡ count_by (is_stray wanted.now) (instances_of dump.now)) }
{
    let keys = keys_of(alloc, wanted)?;
    let set = key_set(alloc, &keys)?;
    let states = dump.states.items();
    let strays = noted_in(&Noted::Strays(&set), states);
    Ok(strays)
}

// The same, where there are desired processes.
fn strays_of(alloc: Global, dump: &Dump, wanted: &[Wanted]) -> Result<u64, OutOfMemory>
    requires { IsDump dump.now }
    ensures { IfOk result (λ strays. strays ≡ strays_of dump.now wanted.now) }
{
    if is_some_row(dump.desired.items()) {
        strays_in(alloc, dump, wanted)
    } else {
        Ok(0)
    }
}

// So many instances that are wanted, if there is no desired process.
fn from_containers(rows: &[DesiredRow], wanted: &[Wanted]) -> u64
    ensures { result ≡ (if is_some_row rows.now then 0 else length wanted.now) }
{
    if is_some_row(rows) {
        0
    } else {
        wanted.len() as u64
    }
}

fn number_of(places: &[Place]) -> u64
    ensures { result ≡ length places.now }
{
    places.len() as u64
}

fn cells_with_optional_tags(states: &[CellState]) -> u64
    ensures { result ≡ count_by (λ s. s.has_optional_tags) states.now }
{
    states
        .iter()
        .filter(|state| state.has_optional_tags)
        .count() as u64
}

fn rows_with_volumes(rows: &[DesiredRow]) -> u64
    ensures { result ≡ count_by (λ d. d.has_volume_drivers || d.has_volume_mounts) rows.now }
{
    rows.iter()
        .filter(|row| row.has_volume_drivers || row.has_volume_mounts)
        .count() as u64
}

/// What a dump tells that is modelled otherwise. It costs a look-up for each row, each container and each
/// wanted instance.
pub fn notes_of(alloc: Global, dump: &Dump) -> Result<Notes, OutOfMemory>
    requires { IsDump dump.now }
    ensures { IfOk result (λ notes. notes ≡ notes_of dump.now) }
{
    let wanted = wanted_of(alloc, dump)?;
    let named = named_cells(alloc, dump)?;
    let silent = silent_of(alloc, dump)?;
    let strays = strays_of(alloc, dump, &wanted)?;
    let states = dump.states.items();
    let desired = dump.desired.items();
    let actual = dump.actual.items();
    let from = from_containers(desired, &wanted);
    let optional = cells_with_optional_tags(states);
    let proxy = proxy_of(dump);
    let rows = rows_of_no_cell(&named, actual);
    let silent_cells = number_of(&silent);
    let drivers = noted_in(&Noted::VolumeDrivers, states);
    let volumes = rows_with_volumes(desired);
    Ok(Notes {
        instances_from_containers: from,
        optional_tags: optional,
        proxy_memory: proxy,
        rows_of_no_cell: rows,
        silent_cells,
        strays,
        volume_drivers: drivers + volumes,
    })
}
