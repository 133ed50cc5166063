//! How processes are spread over zones and cells.
use diego_names::{List, Name};

/// How many instances a zone has.
#[derive(Clone, Copy, Debug, PartialEq, Eq)]
pub struct ZoneCount {
    pub zone: Name,
    pub instances: u64,
}

/// A process whose zones differ by two instances or more.
#[derive(Debug, Drop)]
pub struct Uneven {
    pub process: Name,
    /// The most that a zone has, less the least.
    pub spread: u64,
    /// The zones with an open cell of the process's tag or a container of it, by name.
    pub zones: List<ZoneCount>,
}

/// A process of two instances or more, all on one cell.
#[derive(Clone, Copy, Debug, PartialEq, Eq)]
pub struct OnOneCell {
    pub process: Name,
    pub instances: u64,
    pub cell: Name,
    pub zone: Name,
}

/// A process of two instances or more, all in one zone.
#[derive(Clone, Copy, Debug, PartialEq, Eq)]
pub struct InOneZone {
    pub process: Name,
    pub instances: u64,
    pub zone: Name,
}
