//! The cells that told their state, and the orders in which they go.
ghost use Rattle.std.specs.Prelude.{◌≡◌, ◌≢◌, IfOk, map};
ghost use Rattle.std.specs.List.{All, AllPairs};
ghost use Rattle.auctioneer.specs.Asked.{IsSoundAnswer};
ghost use Rattle.loss_cases.specs.Cells.{
  as_named,
  by_load,
  by_name,
  cell_of_name,
  rank_of,
  tagged,
  tagged_cells,
  tags_of,
  with_tag,
};
ghost use Rattle.what_if.specs.Sites.{IsSite};

use auction_scoring::{CellView, score};
use cell_records::Answer;
use diego_names::{Name, OutOfMemory};
use site_spread::keys_in_order;
use std::alloc::Global;
use std::cmp::Reverse;
use what_if::Site;

// A cell that told its state.
#[derive(Clone, Copy, PartialEq, Eq)]
pub(crate) struct TaggedCell {
    pub(crate) cell: Name,
    pub(crate) zone: Name,
    pub(crate) tag: Option<Name>,
    // How full it is: the auction's load.
    pub(crate) load: u32,
}

// What decides which cell is fuller: the first of these in which two cells differ.
#[derive(Clone, Copy, PartialEq, Eq, PartialOrd, Ord)]
pub(crate) struct Rank {
    load: Reverse<u32>,
    cell: Name,
}

fn name_of(cell: &TaggedCell) -> Name
    ensures { result ≡ cell.now.cell }
{
    cell.cell
}

fn rank_of(cell: &TaggedCell) -> Rank
    ensures { result ≡ rank_of cell.now }
{
    Rank {
        load: Reverse(cell.load),
        cell: cell.cell,
    }
}

fn tagged(answer: &Answer) -> TaggedCell
    requires { IsSoundAnswer answer.now }
    ensures { result ≡ tagged answer.now }
{
    let view = CellView {
        cell: answer.cell,
        tag: answer.tag,
        totals: answer.totals,
        free: answer.free,
        in_zone: 0,
        on_cell: 0,
    };
    TaggedCell {
        cell: answer.cell,
        zone: answer.zone,
        tag: answer.tag,
        load: score(&view).load,
    }
}

// The cells that answered so.
fn tagged_all(alloc: Global, answers: &[Answer]) -> Result<Vec<TaggedCell>, OutOfMemory>
    requires { All IsSoundAnswer answers.now }
    ensures { IfOk result (λ cells. cells.items ≡ map tagged answers.now) }
{
    let mut cells = Vec::new(alloc);
    for answer in answers {
        cells.push(tagged(answer))?;
    }
    Ok(cells)
}

// The cells that told their state.
pub(crate) fn tagged_cells(alloc: Global, site: &Site) -> Result<Vec<TaggedCell>, OutOfMemory>
    requires { IsSite site.now }
    ensures value { IfOk result (λ cells. cells.items ≡ tagged_cells site.now) }
    ensures differ { IfOk result (λ cells. AllPairs (λ a b. a ≢ b) (map (λ c. c.cell) cells.items)) }
{
    let cells = tagged_all(alloc, site.cells.items())?;
    Ok(cells)
}

// By name.
pub(crate) fn by_name(cells: Vec<TaggedCell>) -> Vec<TaggedCell>
    requires { AllPairs (λ a b. a ≢ b) (map (λ c. c.cell) cells.items) }
    ensures { result.items ≡ by_name cells.items }
{
    let mut sorted = cells;
    sorted.sort_unstable_by_key(name_of);
    sorted
}

// The fullest first.
pub(crate) fn by_load(cells: Vec<TaggedCell>) -> Vec<TaggedCell>
    requires { AllPairs (λ a b. a ≢ b) (map (λ c. c.cell) cells.items) }
    ensures { result.items ≡ by_load cells.items }
{
    let mut sorted = cells;
    sorted.sort_unstable_by_key(rank_of);
    sorted
}

// The cell of that name, if it is one of them.
fn cell_of_name(cells: &[TaggedCell], name: &Name) -> Option<TaggedCell>
    ensures { result ≡ cell_of_name cells.now name.now }
{
    for cell in cells {
        if cell.cell == *name {
            return Some(*cell);
        }
    }
    None
}

// Those of them that are named, in the order of the names.
pub(crate) fn as_named(
    alloc: Global,
    cells: &[TaggedCell],
    names: &[Name],
) -> Result<Vec<TaggedCell>, OutOfMemory>
    ensures { IfOk result (λ found. found.items ≡ as_named cells.now names.now) }
{
    let found = names
        .iter()
        .filter_map(|name| cell_of_name(cells, name))
        .collect(alloc)?;
    Ok(found)
}

// The tags of the cells, each once, none first.
pub(crate) fn tags_of(alloc: Global, cells: &[TaggedCell]) -> Result<Vec<Option<Name>>, OutOfMemory>
    ensures { IfOk result (λ tags. tags.items ≡ tags_of cells.now) }
{
    let mut tags = Vec::new(alloc);
    for cell in cells {
        tags.push(cell.tag)?;
    }
    keys_in_order(alloc, tags.as_slice())
}

// Those with the tag.
pub(crate) fn with_tag(
    alloc: Global,
    tag: Option<Name>,
    cells: &[TaggedCell],
) -> Result<Vec<TaggedCell>, OutOfMemory>
    ensures { IfOk result (λ own. own.items ≡ with_tag tag cells.now) }
{
    let mut own = Vec::new(alloc);
    for cell in cells {
        if tag == cell.tag {
            own.push(*cell)?;
        }
    }
    Ok(own)
}
