//! Which cells and zones take more instances.
ghost use Rattle.std.specs.Prelude.{◌≡◌, ◌<◌, ◌≤◌, ◌^◌, filter, map, nat_lt, IfOk, sum_by};
ghost use Rattle.auctioneer.specs.Stands.{same_name};
ghost use Rattle.loss_cases.specs.Fits.{
  each_filled,
  filled_cells,
  filled_of,
  place_of,
  zone_filled,
  zones_filled,
};

use auctioneer::Stand;
use diego_names::{Name, OutOfMemory};
use forecast_records::{Filled, ZoneCount};
use site_spread::keys_in_order;
use std::alloc::Global;
use what_if::table_of;

// What decides where a cell that takes some is told: the first of these in which two differ.
#[derive(Clone, Copy, PartialEq, Eq, PartialOrd, Ord)]
pub(crate) struct Place {
    zone: Name,
    cell: Name,
}

fn place_of(filled: &Filled) -> Place
    ensures { result ≡ place_of filled.now }
{
    Place {
        zone: filled.zone,
        cell: filled.cell,
    }
}

// What a cell takes: what stands there afterwards beside what stood there before.
fn filled_of(before: &Stand, after: &Stand) -> Filled
    ensures { result ≡ filled_of before.now after.now }
{
    let instances = after.jobs.len().saturating_sub(before.jobs.len()) as u64;
    Filled {
        cell: before.cell,
        zone: before.zone,
        instances,
        free: before.free,
        free_left: after.free,
    }
}

// What each cell takes.
fn each_filled(alloc: Global, before: &[Stand], after: &[Stand]) -> Result<Vec<Filled>, OutOfMemory>
    ensures { IfOk result (λ filled. filled.items ≡ each_filled before.now after.now) }
{
    let filled = before
        .iter()
        .zip(after.iter())
        .map(|(before, after)| filled_of(before, after))
        .collect(alloc)?;
    Ok(filled)
}

// Those that take some, each beside its place.
fn taking(alloc: Global, filled: &[Filled]) -> Result<Vec<(Place, Filled)>, OutOfMemory>
    ensures { IfOk result (λ some. some.items
        ≡ map (λ f. (place_of f, f)) (filter (λ f. nat_lt 0 f.instances) filled.now)) }
{
    let some = filled
        .iter()
        .filter(|one| 0 < one.instances)
        .map(|one| (place_of(one), *one))
        .collect(alloc)?;
    Ok(some)
}

// The cells that take some, by zone, then by name.
pub(crate) fn filled_cells(
    alloc: Global,
    before: &[Stand],
    after: &[Stand],
) -> Result<Vec<Filled>, OutOfMemory>
    ensures { IfOk result (λ filled. filled.items ≡ filled_cells before.now after.now) }
{
    let each = each_filled(alloc, before, after)?;
    let some = taking(alloc, &each)?;
    let filled = table_of(alloc, &some)?;
    Ok(filled)
}

// How many the cells of the zone take in all.
fn taken_in(filled: &[Filled], zone: &Name) -> u64
    requires { sum_by (λ f. f.instances) (filter (λ f. same_name zone.now f.zone) filled.now) < 2 ^ 64 }
    ensures { result
        ≡ sum_by (λ f. f.instances) (filter (λ f. same_name zone.now f.zone) filled.now) }
{
    filled
        .iter()
        .filter(|one| *zone == one.zone)
        .map(|one| one.instances)
        .sum()
}

// How many the zone takes.
fn zone_filled(filled: &[Filled], zone: Name) -> ZoneCount
    requires { sum_by (λ f. f.instances) filled.now ≤ 2 ^ 63 }
    ensures { result ≡ zone_filled filled.now zone }
{
    ZoneCount {
        zone,
        instances: taken_in(filled, &zone),
    }
}

fn zones_of(alloc: Global, filled: &[Filled]) -> Result<Vec<Name>, OutOfMemory>
    ensures { IfOk result (λ zones. zones.items ≡ map (λ f. f.zone) filled.now) }
{
    let zones = filled.iter().map(|one| one.zone).collect(alloc)?;
    Ok(zones)
}

// How many each zone takes, by name, without those that take none.
pub(crate) fn zones_filled(alloc: Global, filled: &[Filled]) -> Result<Vec<ZoneCount>, OutOfMemory>
    requires { sum_by (λ f. f.instances) filled.now ≤ 2 ^ 63 }
    ensures { IfOk result (λ counts. counts.items ≡ zones_filled filled.now) }
{
    let told = zones_of(alloc, filled)?;
    let zones = keys_in_order(alloc, told.as_slice())?;
    let mut counts = Vec::new(alloc);
    for zone in &zones {
        counts.push(zone_filled(filled, *zone))?;
    }
    Ok(counts)
}
