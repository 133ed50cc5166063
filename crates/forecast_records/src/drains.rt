//! What happens where cells are emptied in batches, as an update of all cells does.
use crate::stock::ZoneThen;
use crate::unplaced::Unplaced;
use crate::verdict::Verdict;
use diego_names::{List, Name};
use room_facts::Sums;

/// A batch that is emptied.
#[derive(Debug, Drop)]
pub struct Step {
    /// Counts from 1.
    pub step: u64,
    pub zone: Name,
    pub tag: Option<Name>,
    pub cells: List<Name>,
    pub displaced: u64,
    /// Those of the displaced jobs without room.
    pub unplaced: u64,
    /// The jobs without room that waited before this step.
    pub waiting_unplaced: u64,
    /// What the open cells of the tag have free once all is placed.
    pub free_left: Sums,
    /// The jobs without room, in the order of the auction.
    pub without_room: List<Unplaced>,
    pub verdict: Verdict,
}

/// What happens where the batches are emptied one after another.
#[derive(Debug, Drop)]
pub struct Drained {
    /// How many cells are emptied.
    pub cells: u64,
    pub at_a_time: u32,
    /// Steps that aren't `Room`.
    pub bad_steps: u64,
    /// How often jobs were placed.
    pub moves: u64,
    /// The most that one job was placed.
    pub most_moves: u64,
    /// Cells without a container at the end.
    pub empty: u64,
    /// Processes that are uneven before the first step, and behind the last.
    pub uneven_before: u64,
    pub uneven: u64,
    pub steps: List<Step>,
    /// By zone, then by tag, none first: behind the last step.
    pub zones: List<ZoneThen>,
    pub verdict: Verdict,
}
