use cell_records::{Answer, Job};
use diego_names::{Key, List, Name};
use dump_lines::Place;

/// A foundation, as it is planned for.
#[derive(Debug, Drop)]
pub struct Site {
    /// The cells that told their state, by name.
    pub cells: List<Answer>,
    /// The cells that are listed and told no state.
    pub silent: List<Place>,
    /// Where rows that are claimed or running say that instances stand on silent cells.
    pub silent_stays: List<Stay>,
    /// The instances that are wanted, by key.
    pub wanted: List<Wanted>,
    /// The tasks that wait, as jobs.
    pub pending: List<Job>,
    /// Whether the dump told desired processes. Where it didn't, what has a container is wanted.
    pub told_desired: bool,
}

/// An instance that is wanted.
#[derive(Clone, Copy, Debug, PartialEq, Eq)]
pub struct Wanted {
    pub key: Key,
    /// In MB, with what the proxy beside it takes.
    pub memory: u32,
    /// In MB.
    pub disk: u32,
    pub tag: Option<Name>,
    /// Whether its row is crashed: it waits for its time, and isn't placed.
    pub crashed: bool,
}

/// An instance that stands on a cell.
#[derive(Clone, Copy, Debug, PartialEq, Eq)]
pub struct Stay {
    pub key: Key,
    pub cell: Name,
    pub zone: Name,
}
