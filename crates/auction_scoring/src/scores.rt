use diego_names::Name;

/// What a cell scores for a job. Scores are ordered by their fields, one after the other, and the
/// least is the best.
#[derive(Clone, Copy, Debug, PartialEq, Eq, PartialOrd, Ord)]
pub struct Score {
    /// The containers of the job's process in the cell's zone.
    pub in_zone: u64,
    /// Those of them that are on the cell.
    pub on_cell: u64,
    /// How full the cell is before the job: thousandths of memory, of disk and of containers,
    /// together from 0 to 3,000.
    pub load: u32,
    /// Decides between cells that are equal otherwise.
    pub cell: Name,
}
