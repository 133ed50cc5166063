//! Where more instances of a process would go.
use crate::spread::ZoneCount;
use crate::unplaced::Unplaced;
use crate::verdict::Verdict;
use cell_records::Amounts;
use diego_names::{List, Name};

/// A cell that takes some of them.
#[derive(Clone, Copy, Debug, PartialEq, Eq)]
pub struct Filled {
    pub cell: Name,
    pub zone: Name,
    pub instances: u64,
    /// What it has free now, and once they are there.
    pub free: Amounts,
    pub free_left: Amounts,
}

/// Where they would go on what is free now. What waits isn't placed before them.
#[derive(Debug, Drop)]
pub struct Fitted {
    /// How many are asked for.
    pub instances: u32,
    pub placed: u64,
    pub unplaced: u64,
    /// How many of that size the open cells take.
    pub room_for: u64,
    /// How many each zone takes, by name; zones that take none are left out.
    pub zones: List<ZoneCount>,
    /// The first one without room.
    pub first: Option<Unplaced>,
    /// By zone, then by name; cells that take none are left out.
    pub filled: List<Filled>,
    pub verdict: Verdict,
}
