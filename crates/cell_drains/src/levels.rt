//! The site with which a drain begins.
ghost use Rattle.std.specs.Prelude.{◌≡◌, map, IfOk};
ghost use Rattle.std.specs.List.{All};
ghost use Rattle.auctioneer.specs.Asked.{IsSoundAnswer};
ghost use Rattle.cell_drains.specs.Steps.{levelled, levelled_cell, IsLevel};
ghost use Rattle.what_if.specs.Sites.{IsSite};

use crate::sites::site_with;
use cell_records::{Amounts, Answer};
use diego_names::{List, OutOfMemory};
use std::alloc::Global;
use what_if::Site;

// The cell takes no more containers than its totals leave beside those that it has.
fn levelled_cell(alloc: Global, answer: &Answer) -> Result<Answer, OutOfMemory>
    requires { IsSoundAnswer answer.now }
    ensures { IfOk result (λ cell. cell ≡ levelled_cell answer.now) }
{
    // A number that was read is known to be in range.
    let totals = answer.totals.containers;
    let room = totals - answer.containers.len() as u32;
    let containers = Vec::from_slice(alloc, answer.containers.items())?;
    Ok(Answer {
        cell: answer.cell,
        zone: answer.zone,
        tag: answer.tag,
        epoch: answer.epoch,
        evacuating: answer.evacuating,
        totals: answer.totals,
        free: Amounts {
            memory: answer.free.memory,
            disk: answer.free.disk,
            containers: answer.free.containers.min(room),
        },
        last: answer.last,
        containers: List::from(containers),
    })
}

fn levelled_cells(alloc: Global, answers: &[Answer]) -> Result<Vec<Answer>, OutOfMemory>
    requires { All IsSoundAnswer answers.now }
    ensures { IfOk result (λ cells. cells.items ≡ map levelled_cell answers.now) }
{
    let mut cells = Vec::new(alloc);
    for answer in answers {
        cells.push(levelled_cell(alloc, answer)?)?;
    }
    Ok(cells)
}

fn levelled_site(alloc: Global, site: &Site) -> Result<Site, OutOfMemory>
    requires { All IsSoundAnswer site.now.cells }
    ensures { IfOk result (λ made. made ≡ levelled site.now) }
{
    let cells = levelled_cells(alloc, site.cells.items())?;
    let pending = Vec::from_slice(alloc, site.pending.items())?;
    site_with(alloc, site, cells, pending)
}

/// The site as a drain begins with it: no cell takes more containers than its totals leave beside those
/// that it has. So each step leaves a site that may be planned for. It costs a copy of the site.
pub fn levelled(alloc: Global, site: &Site) -> Result<Site, OutOfMemory>
    requires { IsSite site.now }
    ensures value { IfOk result (λ made. made ≡ levelled site.now) }
    ensures sound { IfOk result IsSite }
    ensures level { IfOk result IsLevel }
{
    let made = levelled_site(alloc, site)?;
    Ok(made)
}
