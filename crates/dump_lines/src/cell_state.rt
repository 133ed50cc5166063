//! What a dump tells of cells.
use cell_records::Amounts;
use diego_names::{List, Name};

/// A cell and its zone. It is all that is read of a cell that is listed.
#[derive(Clone, Copy, Debug, PartialEq, Eq)]
pub struct Place {
    pub cell: Name,
    pub zone: Name,
}

/// What a cell told of itself.
#[derive(Debug, Drop)]
pub struct CellState {
    pub place: Place,
    /// Memory and disk in MB.
    pub totals: Amounts,
    /// At most the totals, as told: it need not be the totals less the containers.
    pub free: Amounts,
    /// The placement tag that the cell has, if it has one.
    pub tag: Option<Name>,
    /// Whether it has optional placement tags, which aren't read.
    pub has_optional_tags: bool,
    /// Whether it is being emptied.
    pub evacuating: bool,
    /// How much memory the proxy beside an instance takes, in MB.
    pub proxy_memory: u32,
    /// Its instances. With its tasks they are at most as many as its totals have containers.
    pub instances: List<InstanceOnCell>,
    pub tasks: List<TaskOnCell>,
}

/// An instance that has a container on a cell.
#[derive(Clone, Copy, Debug, PartialEq, Eq)]
pub struct InstanceOnCell {
    pub process: Name,
    /// Counts from 0.
    pub index: u32,
    /// In MB.
    pub memory: u32,
    /// In MB.
    pub disk: u32,
    pub tag: Option<Name>,
    pub ended: bool,
    /// Whether it names volume drivers, which aren't read.
    pub has_volume_drivers: bool,
}

/// A task that has a container on a cell.
#[derive(Clone, Copy, Debug, PartialEq, Eq)]
pub struct TaskOnCell {
    pub task: Name,
    /// In MB.
    pub memory: u32,
    /// In MB.
    pub disk: u32,
}
