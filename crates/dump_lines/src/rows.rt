//! What a dump tells of tasks, and of processes and their instances.
use crate::demand::Demand;
use diego_names::{Key, Name};

/// A task.
#[derive(Clone, Copy, Debug, PartialEq, Eq)]
pub struct TaskRow {
    pub task: Name,
    /// Whether it is PENDING, so that it waits for a cell.
    pub waits: bool,
    pub demand: Demand,
}

/// A process that is wanted.
#[derive(Clone, Copy, Debug, PartialEq, Eq)]
pub struct DesiredRow {
    pub process: Name,
    /// How many instances are wanted.
    pub instances: u32,
    /// What each of them asks for.
    pub demand: Demand,
    /// Whether it names volume drivers, which aren't read.
    pub has_volume_drivers: bool,
    /// Whether it names mounts of volumes, which aren't read.
    pub has_volume_mounts: bool,
}

/// An instance of a process, as the board tells it.
#[derive(Clone, Copy, Debug, PartialEq, Eq)]
pub struct ActualRow {
    pub instance: Key,
    pub state: RowState,
    /// Whether its presence is ORDINARY. Other rows are passed over.
    pub ordinary: bool,
    pub cell: Option<Name>,
}

/// The state of an instance on the board.
#[derive(Clone, Copy, Debug, PartialEq, Eq)]
pub enum RowState {
    Unclaimed,
    Claimed,
    Running,
    Crashed,
}
