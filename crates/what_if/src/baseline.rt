//! A site with nothing lost, as it is looked up for one loss after another.
ghost use Rattle.std.specs.Prelude.{◌≡◌, ℕ, List, [], map, filter, filter_map, Some, unwrap_or, IfOk};
ghost use Rattle.std.specs.HashMap.{get};
ghost use Rattle.std.specs.Option.{option_eq};
ghost use Rattle.auctioneer.specs.Stands.{same_name};
ghost use Rattle.diego_names.specs.declared.key.Key.{Key as AKey};
ghost use Rattle.what_if.specs.Baselines.{beside_holder, cells_in, IsBaseline};
ghost use Rattle.what_if.specs.Holders.{found};
ghost use Rattle.what_if.specs.Sites.{IsSite};
ghost use Rattle.what_if.specs.Stays.{same_key};

use crate::groups::groups_of;
use crate::site::{Site, Stay, Wanted};
use crate::standing::{Holders, stays};
use crate::waiting::waits;
use cell_records::Job;
use diego_names::{Key, List, Name, OutOfMemory};
use std::alloc::Global;
use std::collections::HashMap;

/// A site with what is looked up of it once, for however many losses are asked about.
#[derive(Drop)]
pub struct Baseline<'a> {
    pub site: &'a Site,
    /// Which cell holds which instance while nothing is lost.
    pub before: Holders,
    // What waits while nothing is lost.
    pub(crate) waiting: Vec<Job>,
    // All cells on which an instance stands.
    pub(crate) cells: HashMap<Key, List<Name>>,
    // The wanted instances that a cell holds.
    pub(crate) held: HashMap<Name, List<Wanted>>,
}

fn keys_and_cells(alloc: Global, stays: &[Stay]) -> Result<Vec<(Key, Name)>, OutOfMemory>
    ensures { IfOk result (λ pairs. pairs.items ≡ map (λ s. (s.key, s.cell)) stays.now) }
{
    let pairs = stays
        .iter()
        .map(|stay| (stay.key, stay.cell))
        .collect(alloc)?;
    Ok(pairs)
}

// The cells on which each instance stands.
fn cells_of_instances(
    alloc: Global,
    stays: &[Stay],
) -> Result<HashMap<Key, List<Name>>, OutOfMemory>
    ensures { IfOk result (λ cells. (key : AKey)
        → unwrap_or (get same_key cells key) [] ≡ cells_in stays.now key) }
{
    let pairs = keys_and_cells(alloc, stays)?;
    let cells = groups_of(alloc, &pairs)?;
    Ok(cells)
}

// The instance beside the cell that holds it.
fn beside_holder(holders: &Holders, wanted: &Wanted) -> Option<(Name, Wanted)>
    ensures { result ≡ beside_holder holders.now wanted.now }
{
    match holders.holder(&wanted.key) {
        Some(cell) => Some((cell, *wanted)),
        None => None,
    }
}

fn beside_holders(
    alloc: Global,
    holders: &Holders,
    list: &[Wanted],
) -> Result<Vec<(Name, Wanted)>, OutOfMemory>
    ensures { IfOk result (λ pairs. pairs.items ≡ filter_map (beside_holder holders.now) list.now) }
{
    let pairs = list
        .iter()
        .filter_map(|wanted| beside_holder(holders, wanted))
        .collect(alloc)?;
    Ok(pairs)
}

// Those of the instances that each cell holds.
fn held_on_cells(
    alloc: Global,
    holders: &Holders,
    list: &[Wanted],
) -> Result<HashMap<Name, List<Wanted>>, OutOfMemory>
    ensures { IfOk result (λ held. (cell : List ℕ) → unwrap_or (get same_name held cell) []
        ≡ filter (λ w. option_eq same_name (found holders.now w.key) (Some cell)) list.now) }
{
    let pairs = beside_holders(alloc, holders, list)?;
    let held = groups_of(alloc, &pairs)?;
    Ok(held)
}

/// What is looked up of the site for one loss after another. It costs a few look-ups for each instance that
/// stands or is wanted.
pub fn baseline_of(alloc: Global, site: &Site) -> Result<Baseline<'_>, OutOfMemory>
    requires { IsSite site.now }
    ensures site { IfOk result (λ base. base.site.now ≡ site.now) }
    ensures sound { IfOk result IsBaseline }
{
    let list = stays(alloc, site, &[])?;
    let before = Holders::of(alloc, &list)?;
    let waiting = waits(alloc, site, &before)?;
    let cells = cells_of_instances(alloc, &list)?;
    let held = held_on_cells(alloc, &before, site.wanted.items())?;
    Ok(Baseline {
        site,
        before,
        waiting,
        cells,
        held,
    })
}
