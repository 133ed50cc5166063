//! What is asked of a foundation.
use crate::demand::Demand;
use diego_names::{List, Name};

/// A question.
#[derive(Debug, Drop)]
pub enum Question {
    /// What stands and waits now.
    Show,
    /// What happens where all these cells and zones go at once. The lists aren't both empty.
    Lose {
        cells: List<Name>,
        zones: List<Name>,
    },
    /// What happens where each goes alone.
    LoseEach {
        of: Each,
    },
    /// How many cells of each tag can go one after another.
    LoseInTurn {
        order: TurnOrder,
        /// How many losses each tag has to survive.
        at_least: u32,
    },
    /// What happens where cells are emptied in batches.
    Drain {
        /// How many cells a batch has at most: one or more.
        at_a_time: u32,
        /// The cells in their order, of which there is one at least; where there is no list all
        /// cells are drained.
        cells: Option<List<Name>>,
    },
    /// Where so many instances more of a process would go.
    Fit {
        process: Name,
        instances: u32,
        demand: Demand,
    },
}

/// What goes alone.
#[derive(Clone, Copy, Debug, PartialEq, Eq)]
pub enum Each {
    Zone,
    Cell,
    /// Each cell, and each two cells of one tag.
    Pair,
}

/// The order in which cells go.
#[derive(Debug, Drop)]
pub enum TurnOrder {
    /// The fullest first.
    Fullest,
    ByName,
    /// These cells, of which there is one at least.
    Given(List<Name>),
}
