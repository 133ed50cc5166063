//! The losses that are tried each alone.
ghost use Rattle.std.specs.Prelude.{◌≡◌, [], ◌∷◌, map, IfOk};
ghost use Rattle.loss_cases.specs.Cases.{
  alone,
  cell_names,
  cells_loss,
  each_cell,
  each_zone,
  pairs_in,
  pairs_with,
  zone_loss,
};

use crate::cells::{TaggedCell, with_tag};
use diego_names::{List, Name, OutOfMemory};
use site_answers::cells_of_zone;
use site_spread::{keys_in_order, zone_names};
use std::alloc::Global;
use what_if::Site;

// A loss by the names under which it is told, and the cells that go.
#[derive(Drop)]
pub(crate) struct Loss {
    pub(crate) names: List<Name>,
    pub(crate) cells: List<Name>,
}

fn one(alloc: Global, name: Name) -> Result<List<Name>, OutOfMemory>
    ensures { IfOk result (λ list. list ≡ name ∷ []) }
{
    let mut list = List::new(alloc);
    list.push(name)?;
    Ok(list)
}

fn two(alloc: Global, first: Name, second: Name) -> Result<List<Name>, OutOfMemory>
    ensures { IfOk result (λ list. list ≡ first ∷ second ∷ []) }
{
    let mut list = List::new(alloc);
    list.push(first)?;
    list.push(second)?;
    Ok(list)
}

// The loss of all cells of a zone.
fn zone_loss(alloc: Global, site: &Site, zone: Name) -> Result<Loss, OutOfMemory>
    ensures { IfOk result (λ loss. loss ≡ zone_loss site.now zone) }
{
    let names = one(alloc, zone)?;
    let cells = cells_of_zone(alloc, site, &zone)?;
    Ok(Loss {
        names,
        cells: List::from(cells),
    })
}

// The loss of one cell.
pub(crate) fn cell_loss(alloc: Global, cell: Name) -> Result<Loss, OutOfMemory>
    ensures { IfOk result (λ loss. loss ≡ cells_loss (cell ∷ [])) }
{
    let names = one(alloc, cell)?;
    let cells = one(alloc, cell)?;
    Ok(Loss { names, cells })
}

// The loss of two cells.
fn pair_loss(alloc: Global, first: Name, second: Name) -> Result<Loss, OutOfMemory>
    ensures { IfOk result (λ loss. loss ≡ cells_loss (first ∷ second ∷ [])) }
{
    let names = two(alloc, first, second)?;
    let cells = two(alloc, first, second)?;
    Ok(Loss { names, cells })
}

// Each zone, by name.
pub(crate) fn each_zone(alloc: Global, site: &Site) -> Result<Vec<Loss>, OutOfMemory>
    ensures { IfOk result (λ losses. losses.items ≡ each_zone site.now) }
{
    let zones = zone_names(alloc, site)?;
    let mut losses = Vec::new(alloc);
    for zone in &zones {
        let loss = zone_loss(alloc, site, *zone)?;
        losses.push(loss)?;
    }
    Ok(losses)
}

// The cells that told their state.
fn telling_names(alloc: Global, site: &Site) -> Result<Vec<Name>, OutOfMemory>
    ensures { IfOk result (λ names. names.items ≡ map (λ c. c.cell) site.now.cells) }
{
    let names = site
        .cells
        .items()
        .iter()
        .map(|answer| answer.cell)
        .collect(alloc)?;
    Ok(names)
}

// The silent cells.
fn silent_names(alloc: Global, site: &Site) -> Result<Vec<Name>, OutOfMemory>
    ensures { IfOk result (λ names. names.items ≡ map (λ p. p.cell) site.now.silent) }
{
    let names = site
        .silent
        .items()
        .iter()
        .map(|place| place.cell)
        .collect(alloc)?;
    Ok(names)
}

// All cells by name, also silent ones.
fn cell_names(alloc: Global, site: &Site) -> Result<Vec<Name>, OutOfMemory>
    ensures { IfOk result (λ names. names.items ≡ cell_names site.now) }
{
    let mut names = telling_names(alloc, site)?;
    let mut silent = silent_names(alloc, site)?;
    names.append(&mut silent)?;
    keys_in_order(alloc, names.as_slice())
}

// Each of the cells.
fn alone(alloc: Global, cells: &[Name]) -> Result<Vec<Loss>, OutOfMemory>
    ensures { IfOk result (λ losses. losses.items ≡ alone cells.now) }
{
    let mut losses = Vec::new(alloc);
    for cell in cells {
        let loss = cell_loss(alloc, *cell)?;
        losses.push(loss)?;
    }
    Ok(losses)
}

// Each cell, by name.
pub(crate) fn each_cell(alloc: Global, site: &Site) -> Result<Vec<Loss>, OutOfMemory>
    ensures { IfOk result (λ losses. losses.items ≡ each_cell site.now) }
{
    let names = cell_names(alloc, site)?;
    alone(alloc, names.as_slice())
}

// The cell with each of the others.
fn beside(alloc: Global, cell: Name, others: &[TaggedCell]) -> Result<Vec<Loss>, OutOfMemory>
    ensures { IfOk result (λ losses. losses.items
        ≡ map (λ d. cells_loss (cell ∷ d.cell ∷ [])) others.now) }
{
    let mut losses = Vec::new(alloc);
    for other in others {
        let loss = pair_loss(alloc, cell, other.cell)?;
        losses.push(loss)?;
    }
    Ok(losses)
}

// The cell with each of the others that has its tag.
fn pairs_with(
    alloc: Global,
    cell: &TaggedCell,
    others: &[TaggedCell],
) -> Result<Vec<Loss>, OutOfMemory>
    ensures { IfOk result (λ losses. losses.items ≡ pairs_with cell.now others.now) }
{
    let own = with_tag(alloc, cell.tag, others)?;
    beside(alloc, cell.cell, own.as_slice())
}

// Each two of the cells that have one tag, in their order.
pub(crate) fn pairs_in(alloc: Global, cells: &[TaggedCell]) -> Result<Vec<Loss>, OutOfMemory>
    ensures { IfOk result (λ losses. losses.items ≡ pairs_in cells.now) }
{
    let mut losses = Vec::new(alloc);
    for at in 0..cells.len() {
        let mut more = pairs_with(alloc, &cells[at], &cells[at + 1..])?;
        losses.append(&mut more)?;
    }
    Ok(losses)
}
