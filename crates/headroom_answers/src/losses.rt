//! The cells that go where a question names cells and zones.
ghost use Rattle.std.specs.Prelude.{◌≡◌, ◌++◌, IfOk};
ghost use Rattle.std.specs.List.{flat_map};
ghost use Rattle.site_answers.specs.Losses.{cells_of_zone};
ghost use Rattle.headroom_answers.specs.Findings.{cells_lost, cells_of_zones};

use diego_names::{Name, OutOfMemory};
use site_answers::cells_of_zone;
use site_spread::keys_in_order;
use std::alloc::Global;
use what_if::Site;

fn cells_of_each(alloc: Global, site: &Site, zones: &[Name]) -> Result<Vec<Name>, OutOfMemory>
    ensures { IfOk result (λ cells. cells.items ≡ flat_map (cells_of_zone site.now) zones.now) }
{
    let mut cells = Vec::new(alloc);
    for zone in zones {
        let mut more = cells_of_zone(alloc, site, zone)?;
        cells.append(&mut more)?;
    }
    Ok(cells)
}

// The cells of the zones, of which each counts once.
fn cells_of_zones(alloc: Global, site: &Site, zones: &[Name]) -> Result<Vec<Name>, OutOfMemory>
    ensures { IfOk result (λ cells. cells.items ≡ cells_of_zones site.now zones.now) }
{
    let once = keys_in_order(alloc, zones)?;
    let cells = cells_of_each(alloc, site, &once)?;
    Ok(cells)
}

// These cells, and then those of the zones.
fn all_cells(
    alloc: Global,
    site: &Site,
    cells: &[Name],
    zones: &[Name],
) -> Result<Vec<Name>, OutOfMemory>
    ensures { IfOk result (λ names. names.items ≡ cells.now ++ cells_of_zones site.now zones.now) }
{
    let mut names = Vec::from_slice(alloc, cells)?;
    let mut more = cells_of_zones(alloc, site, zones)?;
    names.append(&mut more)?;
    Ok(names)
}

/// These cells and those of the zones, by name, each once.
pub(crate) fn cells_lost(
    alloc: Global,
    site: &Site,
    cells: &[Name],
    zones: &[Name],
) -> Result<Vec<Name>, OutOfMemory>
    ensures { IfOk result (λ lost. lost.items ≡ cells_lost site.now cells.now zones.now) }
{
    let names = all_cells(alloc, site, cells, zones)?;
    let lost = keys_in_order(alloc, &names)?;
    Ok(lost)
}
