//! How processes are spread over zones.
ghost use Rattle.std.specs.Prelude.{◌≡◌, ℕ, List, Option, ◌∷◌, [], ◌++◌, cond, filter, map, IfOk, OnOk};
ghost use Rattle.std.specs.HashSet.{contains};
ghost use Rattle.dump_reader.specs.Facts.{AllDiffer};
ghost use Rattle.site_spread.specs.Spots.{has_cell_by, is_zone_by, uneven_by, zone_count_by, IsZoning};
ghost use Rattle.site_spread.specs.Spread.{has_cell, is_uneven, most_in, spread_of, uneven_in};
ghost use Rattle.site_spread.specs.Groups.{group_of};
ghost use Rattle.what_if.specs.Stays.{open_cells, stays};

use crate::group::{Group, group_of};
use crate::listing::{processes, zone_names};
use crate::spots::{Spot, counted_at, counts_in_zones};
use diego_names::{List, Name, OutOfMemory};
use forecast_records::{Uneven, ZoneCount};
use std::alloc::Global;
use std::collections::{HashMap, HashSet};
use what_if::{Site, Stay, Wanted, is_open, key_set, stays};

// The zone and tag of each cell that is open with these lost.
fn open_groups(alloc: Global, site: &Site, lost: &[Name]) -> Result<Vec<Group>, OutOfMemory>
    ensures { IfOk result (λ groups. groups.items
        ≡ map group_of (open_cells site.now lost.now)) }
{
    let groups = site
        .cells
        .items()
        .iter()
        .filter(|cell| is_open(lost, cell))
        .map(group_of)
        .collect(alloc)?;
    Ok(groups)
}

// The zones and tags that have an open cell with these lost.
fn groups_left(alloc: Global, site: &Site, lost: &[Name]) -> Result<HashSet<Group>, OutOfMemory>
    ensures { IfOk result (λ groups. (zone : List ℕ) → (tag : Option (List ℕ))
        → has_cell_by groups zone tag ≡ has_cell (open_cells site.now lost.now) zone tag) }
{
    let list = open_groups(alloc, site, lost)?;
    let groups = key_set(alloc, &list)?;
    Ok(groups)
}

// What tells how a process is spread over zones.
#[derive(Drop)]
pub(crate) struct Zoning {
    pub(crate) zones: Vec<Name>,
    // The zones and tags that have an open cell.
    pub(crate) groups: HashSet<Group>,
    // How many instances of a process stand in a zone.
    pub(crate) counts: HashMap<Spot, u64>,
}

fn zoning_of(
    alloc: Global,
    site: &Site,
    lost: &[Name],
    stays: &[Stay],
) -> Result<Zoning, OutOfMemory>
    ensures { IfOk result (IsZoning site.now (open_cells site.now lost.now) stays.now) }
{
    let zones = zone_names(alloc, site)?;
    let groups = groups_left(alloc, site, lost)?;
    let counts = counts_in_zones(alloc, stays)?;
    Ok(Zoning {
        zones,
        groups,
        counts,
    })
}

// Whether the zone counts for the process.
fn is_zone_of(zoning: &Zoning, wanted: &Wanted, zone: &Name) -> bool
    ensures { result ≡ is_zone_by zoning.now wanted.now zone.now }
{
    let group = Group {
        zone: *zone,
        tag: wanted.tag,
    };
    zoning.groups.contains(&group) || 0 < counted_at(&zoning.counts, &wanted.key.process, zone)
}

fn zone_count(zoning: &Zoning, wanted: &Wanted, zone: &Name) -> ZoneCount
    ensures { result ≡ zone_count_by zoning.now wanted.now zone.now }
{
    ZoneCount {
        zone: *zone,
        instances: counted_at(&zoning.counts, &wanted.key.process, zone),
    }
}

// How many instances of the process each of its zones has.
fn zone_counts(
    alloc: Global,
    zoning: &Zoning,
    wanted: &Wanted,
) -> Result<Vec<ZoneCount>, OutOfMemory>
    ensures { IfOk result (λ counts. counts.items ≡ map (zone_count_by zoning.now wanted.now)
        (filter (is_zone_by zoning.now wanted.now) zoning.now.zones.items)) }
{
    let counts = zoning
        .zones
        .iter()
        .filter(|zone| is_zone_of(zoning, wanted, zone))
        .map(|zone| zone_count(zoning, wanted, zone))
        .collect(alloc)?;
    Ok(counts)
}

// The most that a zone has.
fn most_in(counts: &[ZoneCount]) -> u64
    ensures { result ≡ most_in counts.now }
{
    let mut most: u64 = 0;
    for count in counts {
        most = most.max(count.instances);
    }
    most
}

// The most that a zone has less the least.
fn spread_of(counts: &[ZoneCount]) -> u64
    ensures { result ≡ spread_of counts.now }
{
    let most = most_in(counts);
    let mut least = most;
    for count in counts {
        least = least.min(count.instances);
    }
    most.saturating_sub(least)
}

// How the process is spread.
fn uneven_at(alloc: Global, zoning: &Zoning, wanted: &Wanted) -> Result<Uneven, OutOfMemory>
    ensures { IfOk result (λ uneven. uneven ≡ uneven_by zoning.now wanted.now) }
{
    let zones = zone_counts(alloc, zoning, wanted)?;
    Ok(Uneven {
        process: wanted.key.process,
        spread: spread_of(&zones),
        zones: List::from(zones),
    })
}

// Adds the process if its zones differ by two or more.
fn add_if_uneven(list: &mut Vec<Uneven>, uneven: Uneven) -> Result<(), OutOfMemory>
    ensures { OnOk result (list.new.items
        ≡ list.old.items ++ cond (is_uneven uneven) (uneven ∷ []) []) }
{
    if 2 <= uneven.spread {
        list.push(uneven)?;
    }
    Ok(())
}

// Those of the processes that are uneven.
fn uneven_among(alloc: Global, zoning: &Zoning, list: &[Wanted]) -> Result<Vec<Uneven>, OutOfMemory>
    ensures { IfOk result (λ uneven. uneven.items
        ≡ filter is_uneven (map (uneven_by zoning.now) list.now)) }
{
    let mut uneven = Vec::new(alloc);
    for wanted in list {
        let next = uneven_at(alloc, zoning, wanted)?;
        add_if_uneven(&mut uneven, next)?;
    }
    Ok(uneven)
}

/// The uneven processes, by name, where these cells are lost and instances stand so.
///
/// It costs a look-up for each stay, and for each process one or two for each zone.
pub fn uneven_in(
    alloc: Global,
    site: &Site,
    lost: &[Name],
    stays: &[Stay],
) -> Result<Vec<Uneven>, OutOfMemory>
    ensures value { IfOk result (λ uneven. uneven.items
        ≡ uneven_in site.now (open_cells site.now lost.now) stays.now) }
    ensures once { IfOk result (λ uneven. AllDiffer (map (λ u. u.process) uneven.items)) }
{
    let zoning = zoning_of(alloc, site, lost, stays)?;
    let list = processes(alloc, site)?;
    let uneven = uneven_among(alloc, &zoning, &list)?;
    Ok(uneven)
}

/// The uneven processes as instances stand now, by name.
pub fn uneven_now(alloc: Global, site: &Site) -> Result<Vec<Uneven>, OutOfMemory>
    ensures value { IfOk result (λ uneven. uneven.items
        ≡ uneven_in site.now (open_cells site.now []) (stays site.now [])) }
    ensures once { IfOk result (λ uneven. AllDiffer (map (λ u. u.process) uneven.items)) }
{
    let list = stays(alloc, site, &[])?;
    let uneven = uneven_in(alloc, site, &[], &list)?;
    Ok(uneven)
}
