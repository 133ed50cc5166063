//! Where instances stand on cells as an auction leaves them.
ghost use Rattle.std.specs.Prelude.{◌≡◌, IfOk};
ghost use Rattle.std.specs.List.{flat_map};
ghost use Rattle.what_if.specs.Stays.{stays_after, stays_at};

use auctioneer::Stand;
use diego_names::{Name, OutOfMemory};
use std::alloc::Global;
use what_if::{Site, Stay, instance_in, silent_stays, stay_at};

fn stays_at(alloc: Global, stand: &Stand) -> Result<Vec<Stay>, OutOfMemory>
    ensures { IfOk result (λ list. list.items ≡ stays_at stand.now.cell stand.now.zone stand.now.jobs) }
{
    let list = stand
        .jobs
        .items()
        .iter()
        .filter_map(|job| instance_in(job))
        .map(|key| stay_at(&stand.cell, &stand.zone, key))
        .collect(alloc)?;
    Ok(list)
}

fn stays_on_stands(alloc: Global, stands: &[Stand]) -> Result<Vec<Stay>, OutOfMemory>
    ensures { IfOk result (λ list. list.items
        ≡ flat_map (λ s. stays_at s.cell s.zone s.jobs) stands.now) }
{
    let mut list = Vec::new(alloc);
    for stand in stands {
        let mut more = stays_at(alloc, stand)?;
        list.append(&mut more)?;
    }
    Ok(list)
}

/// Where instances stand on these cells, then on silent ones that aren't lost.
pub fn stays_after(
    alloc: Global,
    site: &Site,
    lost: &[Name],
    stands: &[Stand],
) -> Result<Vec<Stay>, OutOfMemory>
    ensures { IfOk result (λ list. list.items ≡ stays_after site.now lost.now stands.now) }
{
    let mut list = stays_on_stands(alloc, stands)?;
    let mut silent = silent_stays(alloc, site, lost)?;
    list.append(&mut silent)?;
    Ok(list)
}
