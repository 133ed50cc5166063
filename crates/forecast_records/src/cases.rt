//! What happens where one thing after another is lost, each alone or all in turn.
use crate::unplaced::Unplaced;
use crate::verdict::Verdict;
use diego_names::{List, Name};
use dump_lines::Each;

/// One loss of several that are tried, each alone.
#[derive(Debug, Drop)]
pub struct Case {
    /// The zone, the cell or the two cells.
    pub lost: List<Name>,
    /// How many cells that are.
    pub cells: u64,
    pub displaced: u64,
    pub unplaced: u64,
    pub waiting_unplaced: u64,
    /// Processes of two instances or more of which none is held.
    pub dark_of_many: u64,
    /// The tags of the jobs without room, none first, each once.
    pub tags: List<Option<Name>>,
    pub verdict: Verdict,
}

/// What happens where each goes alone.
#[derive(Debug, Drop)]
pub struct EachLost {
    pub of: Each,
    /// How many losses were tried: of each verdict so many.
    pub room: u64,
    pub unplaced: u64,
    pub short: u64,
    /// By name, of pairs the single cells first. Of pairs those alone that don't find room.
    pub cases: List<Case>,
    pub verdict: Verdict,
}

/// The order in which cells go.
#[derive(Clone, Copy, Debug, PartialEq, Eq)]
pub enum TurnWord {
    Fullest,
    Name,
    Given,
}

/// How many cells of a tag can go one after another.
#[derive(Debug, Drop)]
pub struct Turn {
    pub tag: Option<Name>,
    /// The cells of the tag that are in the order.
    pub cells: u64,
    /// How many can go.
    pub survived: u64,
    /// The cells that went. The last one is too much where a displaced job has no room.
    pub lost: List<Name>,
    /// The displaced jobs without room behind the last loss.
    pub unplaced: u64,
    /// The first of these in the order of the auction.
    pub first: Option<Unplaced>,
    pub verdict: Verdict,
}

/// How many cells can go in turn.
#[derive(Debug, Drop)]
pub struct TurnsTaken {
    pub order: TurnWord,
    /// How many losses each tag has to survive.
    pub at_least: u32,
    /// The least that a tag survives.
    pub survived: u64,
    /// By tag, none first.
    pub turns: List<Turn>,
    pub verdict: Verdict,
}
