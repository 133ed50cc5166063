//! What happens where cells are lost at once.
use crate::stock::{TagRoom, ZoneThen};
use crate::unplaced::Unplaced;
use crate::verdict::Verdict;
use cell_records::JobName;
use diego_names::{List, Name};

/// A job that is placed.
#[derive(Clone, Copy, Debug, PartialEq, Eq)]
pub struct Move {
    pub job: JobName,
    /// The cell that held it, if one did before the loss. Where it is `None` the job waited.
    pub from: Option<Name>,
    pub to: Name,
}

/// What a loss does.
#[derive(Debug, Drop)]
pub struct Lost {
    /// How many cells are lost.
    pub cells: u64,
    /// The jobs that wait because of the loss.
    pub displaced: u64,
    /// Those of them without room.
    pub unplaced: u64,
    /// The jobs that waited before.
    pub waiting: u64,
    /// Those of them without room.
    pub waiting_unplaced: u64,
    /// Containers of tasks on the lost cells. They fail, and are not placed.
    pub tasks: u64,
    /// Processes with displaced instances of which no instance is held.
    pub dark: u64,
    /// Those of them that had two instances or more, by name.
    pub dark_of_many: List<Name>,
    /// Processes that are uneven once all that waits is placed.
    pub uneven: u64,
    /// By tag, none first.
    pub tags: List<TagRoom>,
    /// The jobs without room, in the order of the auction.
    pub without_room: List<Unplaced>,
    /// By zone, then by tag, none first.
    pub zones: List<ZoneThen>,
    /// In the order of the auction.
    pub moves: List<Move>,
    pub verdict: Verdict,
}
