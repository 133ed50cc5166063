use cell_records::{Amounts, JobName};
use diego_names::Name;
use room_facts::Reasons;

/// A job that found no room, and why.
#[derive(Clone, Copy, Debug, PartialEq, Eq)]
pub struct Unplaced {
    pub job: JobName,
    /// In MB, with what the proxy beside an instance takes.
    pub memory: u32,
    /// In MB.
    pub disk: u32,
    pub tag: Option<Name>,
    /// Whether it waited before anything was lost.
    pub waited: bool,
    /// What it lacks on each open cell, as its turn found them.
    pub reasons: Reasons,
    /// Of each amount the most that is free then on a cell of its tag, each perhaps on another cell.
    pub most_free: Amounts,
    /// How many of the jobs that wait have its tag and are at least as large.
    pub as_large: u64,
    /// How many of its size the open cells of its tag take before the first job.
    pub room_for: u64,
}
