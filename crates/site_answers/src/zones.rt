//! What the cells of each zone and tag have.
ghost use Rattle.std.specs.Prelude.{◌≡◌, ◌≤◌, ◌^◌, ◌++◌, ◌∷◌, [], length, map, IfOk, OnOk};
ghost use Rattle.auctioneer.specs.Asked.{AreAnswers};
ghost use Rattle.site_answers.specs.Zones.{
  cells_in,
  groups_of,
  stands_in,
  zone_now,
  zone_then,
  zone_totals,
  zones_now,
  zones_then,
};
ghost use Rattle.site_spread.specs.Groups.{group_of};
ghost use Rattle.what_if.specs.Sites.{IsSite};

use crate::amounts::{most_of, number_of, sums_of};
use crate::cell_counts::instances_of_group;
use auctioneer::Stand;
use cell_records::Amounts;
use diego_names::{List, Name, OutOfMemory};
use forecast_records::{ZoneNow, ZoneThen, ZoneTotals};
use site_spread::{Group, group_of, is_in, keys_in_order};
use std::alloc::Global;
use what_if::Site;

fn groups_told(alloc: Global, site: &Site) -> Result<Vec<Group>, OutOfMemory>
    ensures { IfOk result (λ groups. groups.items ≡ map group_of site.now.cells) }
{
    let groups = site
        .cells
        .items()
        .iter()
        .map(|cell| group_of(cell))
        .collect(alloc)?;
    Ok(groups)
}

// The zones and tags of the cells that told their state, each once.
fn groups_of(alloc: Global, site: &Site) -> Result<Vec<Group>, OutOfMemory>
    ensures { IfOk result (λ groups. groups.items ≡ groups_of site.now) }
{
    let groups = groups_told(alloc, site)?;
    let once = keys_in_order(alloc, &groups)?;
    Ok(once)
}

// What each cell of the group has in all.
fn totals_in(alloc: Global, site: &Site, group: &Group) -> Result<Vec<Amounts>, OutOfMemory>
    ensures { IfOk result (λ totals. totals.items ≡ map (λ c. c.totals) (cells_in site.now group.now)) }
{
    let totals = site
        .cells
        .items()
        .iter()
        .filter(|cell| is_in(group, &cell.zone, &cell.tag))
        .map(|cell| cell.totals)
        .collect(alloc)?;
    Ok(totals)
}

// What each of them has free now.
fn free_in(alloc: Global, site: &Site, group: &Group) -> Result<Vec<Amounts>, OutOfMemory>
    ensures { IfOk result (λ free. free.items ≡ map (λ c. c.free) (cells_in site.now group.now)) }
{
    let free = site
        .cells
        .items()
        .iter()
        .filter(|cell| is_in(group, &cell.zone, &cell.tag))
        .map(|cell| cell.free)
        .collect(alloc)?;
    Ok(free)
}

// What each open cell of the group has free as an auction leaves it.
fn free_left_in(alloc: Global, stands: &[Stand], group: &Group) -> Result<Vec<Amounts>, OutOfMemory>
    ensures { IfOk result (λ free. free.items ≡ map (λ s. s.free) (stands_in stands.now group.now)) }
{
    let free = stands
        .iter()
        .filter(|stand| is_in(group, &stand.zone, &stand.tag))
        .map(|stand| stand.free)
        .collect(alloc)?;
    Ok(free)
}

// What the cells of the group have.
fn zone_totals(alloc: Global, site: &Site, group: &Group) -> Result<ZoneTotals, OutOfMemory>
    requires { AreAnswers site.now.cells }
    ensures { IfOk result (λ totals. totals ≡ zone_totals site.now group.now) }
{
    let totals = totals_in(alloc, site, group)?;
    let free = free_in(alloc, site, group)?;
    let cells = number_of(&totals);
    let total = sums_of(&totals);
    let left = sums_of(&free);
    Ok(ZoneTotals {
        zone: group.zone,
        tag: group.tag,
        cells,
        total,
        free: left,
    })
}

// Adds what stands in a group now.
fn add_zone_now(
    alloc: Global,
    list: &mut List<ZoneNow>,
    site: &Site,
    group: &Group,
) -> Result<(), OutOfMemory>
    requires { AreAnswers site.now.cells }
    ensures { OnOk result (list.new ≡ list.old ++ zone_now site.now group.now ∷ []) }
{
    let free = free_in(alloc, site, group)?;
    let most_free = most_of(&free);
    let instances = instances_of_group(site, group);
    let own = zone_totals(alloc, site, group)?;
    let of = ZoneTotals {
        zone: group.zone,
        tag: group.tag,
        cells: own.cells,
        total: own.total,
        free: own.free,
    };
    let zone = ZoneNow {
        of,
        instances,
        most_free,
    };
    list.push(zone)?;
    Ok(())
}

/// Each zone and tag, with what stands there now. It costs for each a look at each cell, and at the
/// containers of its own.
pub fn zones_now(alloc: Global, site: &Site) -> Result<List<ZoneNow>, OutOfMemory>
    requires { IsSite site.now }
    ensures { IfOk result (λ zones. zones ≡ zones_now site.now) }
{
    let groups = groups_of(alloc, site)?;
    let mut zones = List::new(alloc);
    for group in &groups {
        add_zone_now(alloc, &mut zones, site, group)?;
    }
    Ok(zones)
}

// Adds what is left in a group.
fn add_zone_then(
    alloc: Global,
    list: &mut List<ZoneThen>,
    site: &Site,
    stands: &[Stand],
    group: &Group,
) -> Result<(), OutOfMemory>
    requires cells { AreAnswers site.now.cells }
    requires few { length stands.now ≤ 2 ^ 32 }
    ensures { OnOk result (list.new ≡ list.old ++ zone_then site.now stands.now group.now ∷ []) }
{
    let of = zone_totals(alloc, site, group)?;
    let free = free_left_in(alloc, stands, group)?;
    let cells_left = number_of(&free);
    let free_left = sums_of(&free);
    let zone = ZoneThen {
        of,
        cells_left,
        free_left,
    };
    list.push(zone)?;
    Ok(())
}

/// Each zone and tag, with what is left once all is placed: the open cells are as an auction leaves them.
/// It costs for each a look at each cell.
pub fn zones_then(
    alloc: Global,
    site: &Site,
    stands: &[Stand],
) -> Result<List<ZoneThen>, OutOfMemory>
    requires site { IsSite site.now }
    requires few { length stands.now ≤ 2 ^ 32 }
    ensures { IfOk result (λ zones. zones ≡ zones_then site.now stands.now) }
{
    let groups = groups_of(alloc, site)?;
    let mut zones = List::new(alloc);
    for group in &groups {
        add_zone_then(alloc, &mut zones, site, stands, group)?;
    }
    Ok(zones)
}
