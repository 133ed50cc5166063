//! Sets of cells, and which cells are open.
ghost use Rattle.std.specs.Prelude.{◌≡◌, ℕ, List, [], ◌∷◌, ◌++◌, cond, IfOk, OnOk};
ghost use Rattle.std.specs.HashSet.{contains};
ghost use Rattle.auctioneer.specs.Asked.{AreAnswers};
ghost use Rattle.auctioneer.specs.Stands.{same_name};
ghost use Rattle.what_if.specs.Sites.{IsSite};
ghost use Rattle.what_if.specs.Stays.{is_lost, is_open, open_cells};

use crate::site::Site;
use cell_records::Answer;
use diego_names::{List, Name, OutOfMemory};
use std::alloc::Global;
use std::collections::HashSet;

/// Names that are looked up often.
pub fn set_of(alloc: Global, names: &[Name]) -> Result<HashSet<Name>, OutOfMemory>
    ensures { IfOk result (λ set. (name : List ℕ) → contains same_name set name ≡ is_lost names.now name) }
{
    let mut set = HashSet::new(alloc);
    for name in names {
        set.insert(*name)?;
    }
    Ok(set)
}

/// Whether the cell is lost. It costs a look at each that is.
pub fn is_lost(lost: &[Name], cell: &Name) -> bool
    ensures { result ≡ is_lost lost.now cell.now }
{
    lost.iter().any(|name| *name == *cell)
}

/// Whether work may stand and go there with these cells lost.
pub fn is_open(lost: &[Name], answer: &Answer) -> bool
    ensures { result ≡ is_open lost.now answer.now }
{
    !is_lost(lost, &answer.cell) && !answer.evacuating
}

fn copy_of(alloc: Global, answer: &Answer) -> Result<Answer, OutOfMemory>
    ensures { IfOk result (λ copy. copy ≡ answer.now) }
{
    let containers = Vec::from_slice(alloc, answer.containers.items())?;
    Ok(Answer {
        cell: answer.cell,
        zone: answer.zone,
        tag: answer.tag,
        epoch: answer.epoch,
        evacuating: answer.evacuating,
        totals: answer.totals,
        free: answer.free,
        last: answer.last,
        containers: List::from(containers),
    })
}

// Adds the cell if it is open.
fn add_if_open(
    alloc: Global,
    cells: &mut Vec<Answer>,
    lost: &[Name],
    answer: &Answer,
) -> Result<(), OutOfMemory>
    ensures { OnOk result (cells.new.items
        ≡ cells.old.items ++ cond (is_open lost.now answer.now) (answer.now ∷ []) []) }
{
    if is_open(lost, answer) {
        cells.push(copy_of(alloc, answer)?)?;
    }
    Ok(())
}

/// The cells that told their state and are open once these are lost, as an auction takes them. It costs
/// a copy of their containers.
pub fn open_cells(alloc: Global, site: &Site, lost: &[Name]) -> Result<Vec<Answer>, OutOfMemory>
    requires { IsSite site.now }
    ensures value { IfOk result (λ cells. cells.items ≡ open_cells site.now lost.now) }
    ensures sound { IfOk result (λ cells. AreAnswers cells.items) }
{
    let mut cells = Vec::new(alloc);
    for answer in site.cells.items() {
        add_if_open(alloc, &mut cells, lost, answer)?;
    }
    Ok(cells)
}
