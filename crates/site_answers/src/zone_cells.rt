//! The cells of a zone.
ghost use Rattle.std.specs.Prelude.{◌≡◌, map, filter, IfOk};
ghost use Rattle.auctioneer.specs.Stands.{same_name};
ghost use Rattle.site_answers.specs.Losses.{cells_of_zone};

use diego_names::{Name, OutOfMemory};
use std::alloc::Global;
use what_if::Site;

// The cells of the zone that told their state.
fn telling_cells(alloc: Global, site: &Site, zone: &Name) -> Result<Vec<Name>, OutOfMemory>
    ensures { IfOk result (λ cells. cells.items
        ≡ map (λ c. c.cell) (filter (λ c. same_name zone.now c.zone) site.now.cells)) }
{
    let cells = site
        .cells
        .items()
        .iter()
        .filter(|answer| *zone == answer.zone)
        .map(|answer| answer.cell)
        .collect(alloc)?;
    Ok(cells)
}

// The cells of the zone that are silent.
fn silent_cells(alloc: Global, site: &Site, zone: &Name) -> Result<Vec<Name>, OutOfMemory>
    ensures { IfOk result (λ cells. cells.items
        ≡ map (λ p. p.cell) (filter (λ p. same_name zone.now p.zone) site.now.silent)) }
{
    let cells = site
        .silent
        .items()
        .iter()
        .filter(|place| *zone == place.zone)
        .map(|place| place.cell)
        .collect(alloc)?;
    Ok(cells)
}

/// The cells of a zone: those that told their state, by name, then the silent ones.
pub fn cells_of_zone(alloc: Global, site: &Site, zone: &Name) -> Result<Vec<Name>, OutOfMemory>
    ensures { IfOk result (λ cells. cells.items ≡ cells_of_zone site.now zone.now) }
{
    let mut cells = telling_cells(alloc, site, zone)?;
    let mut silent = silent_cells(alloc, site, zone)?;
    cells.append(&mut silent)?;
    Ok(cells)
}
