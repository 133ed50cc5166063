//! The processes that are wanted, and the zones that there are.
ghost use Rattle.std.specs.Prelude.{◌≡◌, map, ◌++◌, IfOk};
ghost use Rattle.site_spread.specs.Spread.{processes, zone_names};

use crate::keys::keys_in_order;
use diego_names::{Name, OutOfMemory};
use std::alloc::Global;
use what_if::{Site, Wanted, table_of};

fn with_processes(alloc: Global, list: &[Wanted]) -> Result<Vec<(Name, Wanted)>, OutOfMemory>
    ensures { IfOk result (λ rows. rows.items ≡ map (λ w. (w.key.process, w)) list.now) }
{
    let rows = list
        .iter()
        .map(|wanted| (wanted.key.process, *wanted))
        .collect(alloc)?;
    Ok(rows)
}

/// The processes that are wanted, by name, each by its first instance. It costs the logarithm of their number for
/// each instance.
pub fn processes(alloc: Global, site: &Site) -> Result<Vec<Wanted>, OutOfMemory>
    ensures { IfOk result (λ list. list.items ≡ processes site.now) }
{
    let rows = with_processes(alloc, site.wanted.items())?;
    let made = table_of(alloc, &rows)?;
    Ok(made)
}

fn zones_told(alloc: Global, site: &Site) -> Result<Vec<Name>, OutOfMemory>
    ensures { IfOk result (λ zones. zones.items ≡ map (λ c. c.zone) site.now.cells) }
{
    let zones = site
        .cells
        .items()
        .iter()
        .map(|cell| cell.zone)
        .collect(alloc)?;
    Ok(zones)
}

fn zones_listed(alloc: Global, site: &Site) -> Result<Vec<Name>, OutOfMemory>
    ensures { IfOk result (λ zones. zones.items ≡ map (λ p. p.zone) site.now.silent) }
{
    let zones = site
        .silent
        .items()
        .iter()
        .map(|place| place.zone)
        .collect(alloc)?;
    Ok(zones)
}

// The zone of each cell, by the cells that told their state and then by the silent ones.
fn all_zones(alloc: Global, site: &Site) -> Result<Vec<Name>, OutOfMemory>
    ensures { IfOk result (λ zones. zones.items
        ≡ map (λ c. c.zone) site.now.cells ++ map (λ p. p.zone) site.now.silent) }
{
    let mut zones = zones_told(alloc, site)?;
    let mut silent = zones_listed(alloc, site)?;
    zones.append(&mut silent)?;
    Ok(zones)
}

/// The zones of the cells that told their state, and of the silent ones, by name.
pub fn zone_names(alloc: Global, site: &Site) -> Result<Vec<Name>, OutOfMemory>
    ensures { IfOk result (λ zones. zones.items ≡ zone_names site.now) }
{
    let zones = all_zones(alloc, site)?;
    let names = keys_in_order(alloc, &zones)?;
    Ok(names)
}
