//! Processes that are all on one cell, or all in one zone.
ghost use Rattle.std.specs.Prelude.{◌≡◌, ℕ, List, map, filter_map, unwrap_or, IfOk};
ghost use Rattle.std.specs.HashMap.{get};
ghost use Rattle.auctioneer.specs.Stands.{same_name};
ghost use Rattle.site_spread.specs.Together.{
  first_place,
  in_zone_by,
  on_cell_by,
  one_cell_by,
  one_zone_by,
  AreTallies,
};
ghost use Rattle.site_spread.specs.Spread.{in_one_zone, on_one_cell, standing};

use crate::counts::{count_in, counts_of};
use crate::listing::processes;
use crate::spots::{Spot, counted_at, counts_in_zones, counts_on_cells};
use diego_names::{List, Name, OutOfMemory};
use dump_lines::Place;
use forecast_records::{InOneZone, OnOneCell};
use std::alloc::Global;
use std::collections::HashMap;
use what_if::{Site, Stay, Wanted};

fn processes_of(alloc: Global, stays: &[Stay]) -> Result<Vec<Name>, OutOfMemory>
    ensures { IfOk result (λ names. names.items ≡ map (λ s. s.key.process) stays.now) }
{
    let names = stays.iter().map(|stay| stay.key.process).collect(alloc)?;
    Ok(names)
}

// How many instances of each process stand somewhere.
fn counts_standing(alloc: Global, stays: &[Stay]) -> Result<HashMap<Name, u64>, OutOfMemory>
    ensures { IfOk result (λ counts. (process : List ℕ)
        → unwrap_or (get same_name counts process) 0 ≡ standing stays.now process) }
{
    let names = processes_of(alloc, stays)?;
    let counts = counts_of(alloc, &names)?;
    Ok(counts)
}

// Of each process the place of the first instance that stands somewhere.
fn first_places(alloc: Global, stays: &[Stay]) -> Result<HashMap<Name, Place>, OutOfMemory>
    ensures { IfOk result (λ first. (process : List ℕ)
        → get same_name first process ≡ first_place stays.now process) }
{
    let mut first = HashMap::new(alloc);
    let mut at = stays.len();
    while at > 0 {
        at -= 1;
        let stay = stays[at];
        let process = stay.key.process;
        let place = Place {
            cell: stay.cell,
            zone: stay.zone,
        };
        first.insert(process, place)?;
    }
    Ok(first)
}

// What tells whether a process is all on one cell or all in one zone.
#[derive(Drop)]
pub(crate) struct Tallies {
    // How many instances of a process stand somewhere.
    pub(crate) standing: HashMap<Name, u64>,
    pub(crate) on_cell: HashMap<Spot, u64>,
    pub(crate) in_zone: HashMap<Spot, u64>,
    // Where the first of them stands.
    pub(crate) first: HashMap<Name, Place>,
}

fn tallies_of(alloc: Global, stays: &[Stay]) -> Result<Tallies, OutOfMemory>
    ensures { IfOk result (AreTallies stays.now) }
{
    let standing = counts_standing(alloc, stays)?;
    let on_cell = counts_on_cells(alloc, stays)?;
    let in_zone = counts_in_zones(alloc, stays)?;
    let first = first_places(alloc, stays)?;
    Ok(Tallies {
        standing,
        on_cell,
        in_zone,
        first,
    })
}

// The process, if two or more of it stand somewhere and all on this cell.
fn one_cell_at(tallies: &Tallies, process: &Name, place: &Place) -> Option<OnOneCell>
    ensures { result ≡ one_cell_by tallies.now process.now place.now }
{
    let instances = count_in(&tallies.standing, process);
    if 2 <= instances && instances == counted_at(&tallies.on_cell, process, &place.cell) {
        Some(OnOneCell {
            process: *process,
            instances,
            cell: place.cell,
            zone: place.zone,
        })
    } else {
        None
    }
}

// The process, if two or more of it stand somewhere and all on one cell.
fn on_cell(tallies: &Tallies, wanted: &Wanted) -> Option<OnOneCell>
    ensures { result ≡ on_cell_by tallies.now wanted.now }
{
    let process = wanted.key.process;
    match tallies.first.get(&process) {
        Some(place) => one_cell_at(tallies, &process, place),
        None => None,
    }
}

fn all_on_cell(
    alloc: Global,
    tallies: &Tallies,
    list: &[Wanted],
) -> Result<Vec<OnOneCell>, OutOfMemory>
    ensures { IfOk result (λ own. own.items ≡ filter_map (on_cell_by tallies.now) list.now) }
{
    let own = list
        .iter()
        .filter_map(|wanted| on_cell(tallies, wanted))
        .collect(alloc)?;
    Ok(own)
}

// The process, if two or more of it stand somewhere and all in this zone.
fn one_zone_at(tallies: &Tallies, process: &Name, place: &Place) -> Option<InOneZone>
    ensures { result ≡ one_zone_by tallies.now process.now place.now }
{
    let instances = count_in(&tallies.standing, process);
    if 2 <= instances && instances == counted_at(&tallies.in_zone, process, &place.zone) {
        Some(InOneZone {
            process: *process,
            instances,
            zone: place.zone,
        })
    } else {
        None
    }
}

// The process, if two or more of it stand somewhere and all in one zone.
fn in_zone(tallies: &Tallies, wanted: &Wanted) -> Option<InOneZone>
    ensures { result ≡ in_zone_by tallies.now wanted.now }
{
    let process = wanted.key.process;
    match tallies.first.get(&process) {
        Some(place) => one_zone_at(tallies, &process, place),
        None => None,
    }
}

fn all_in_zone(
    alloc: Global,
    tallies: &Tallies,
    list: &[Wanted],
) -> Result<Vec<InOneZone>, OutOfMemory>
    ensures { IfOk result (λ own. own.items ≡ filter_map (in_zone_by tallies.now) list.now) }
{
    let own = list
        .iter()
        .filter_map(|wanted| in_zone(tallies, wanted))
        .collect(alloc)?;
    Ok(own)
}

/// The processes of two instances or more that are all in one place, by name.
#[derive(Debug, Drop)]
pub struct Together {
    pub on_cell: List<OnOneCell>,
    pub in_zone: List<InOneZone>,
}

/// The processes that are all in one place where instances stand so. It costs a few look-ups for each stay and
/// for each process.
pub fn together_in(alloc: Global, site: &Site, stays: &[Stay]) -> Result<Together, OutOfMemory>
    ensures on_cell { IfOk result (λ own. own.on_cell ≡ on_one_cell site.now stays.now) }
    ensures in_zone { IfOk result (λ own. own.in_zone ≡ in_one_zone site.now stays.now) }
{
    let tallies = tallies_of(alloc, stays)?;
    let list = processes(alloc, site)?;
    let on_cell = all_on_cell(alloc, &tallies, &list)?;
    let in_zone = all_in_zone(alloc, &tallies, &list)?;
    Ok(Together {
        on_cell: List::from(on_cell),
        in_zone: List::from(in_zone),
    })
}
