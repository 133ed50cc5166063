//! What a foundation has and what waits, by tag and by zone.
use crate::spread::{InOneZone, OnOneCell, Uneven};
use crate::unplaced::Unplaced;
use crate::verdict::Verdict;
use cell_records::Amounts;
use diego_names::{List, Name};
use room_facts::Sums;

/// The jobs of one tag, and the open cells that may take them.
#[derive(Clone, Copy, Debug, PartialEq, Eq)]
pub struct TagRoom {
    /// Where it is `None`, these are the jobs and cells without a tag.
    pub tag: Option<Name>,
    /// The cells that are open.
    pub cells_left: u64,
    /// The jobs that wait.
    pub jobs: u64,
    /// What these ask for in all.
    pub asked: Sums,
    /// What the open cells have free in all before the first job.
    pub free: Sums,
    /// The jobs that found no room.
    pub unplaced: u64,
    /// The memory in MB that those ask for in all.
    pub unplaced_memory: u64,
    pub verdict: Verdict,
}

/// The cells of one zone and tag that told their state.
#[derive(Clone, Copy, Debug, PartialEq, Eq)]
pub struct ZoneTotals {
    pub zone: Name,
    pub tag: Option<Name>,
    pub cells: u64,
    pub total: Sums,
    pub free: Sums,
}

/// The same, with what stands there now.
#[derive(Clone, Copy, Debug, PartialEq, Eq)]
pub struct ZoneNow {
    pub of: ZoneTotals,
    /// Containers of instances that have not ended.
    pub instances: u64,
    /// Of each amount the most that one of the cells has free, each perhaps another one.
    pub most_free: Amounts,
}

/// The same, with what is left once all that waits is placed.
#[derive(Clone, Copy, Debug, PartialEq, Eq)]
pub struct ZoneThen {
    pub of: ZoneTotals,
    /// Those of the cells that are open.
    pub cells_left: u64,
    /// What these have free then.
    pub free_left: Sums,
}

/// What stands and waits now, with what waits placed and no cell lost.
#[derive(Debug, Drop)]
pub struct Shown {
    /// Those that told their state. Among them are those that are being emptied.
    pub cells: u64,
    pub evacuating: u64,
    /// Cells that are listed and told no state.
    pub silent: u64,
    /// Containers of instances that have not ended, on cells that told their state.
    pub instances: u64,
    /// Processes that are wanted.
    pub processes: u64,
    /// Containers of tasks.
    pub tasks: u64,
    /// Wanted instances whose row is crashed: they wait for their time, and aren't placed.
    pub crashed: u64,
    /// The jobs that wait.
    pub waiting: u64,
    /// By tag, none first.
    pub tags: List<TagRoom>,
    /// The jobs that found no room, in the order of the auction.
    pub unplaced: List<Unplaced>,
    /// By zone, then by tag, none first.
    pub zones: List<ZoneNow>,
    /// The largest spread first, then by name.
    pub uneven: List<Uneven>,
    /// By name.
    pub one_cell: List<OnOneCell>,
    /// By name.
    pub one_zone: List<InOneZone>,
    pub verdict: Verdict,
}
