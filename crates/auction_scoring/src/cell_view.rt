use cell_records::Amounts;
use diego_names::Name;

/// A cell as the auction sees it for one job.
#[derive(Clone, Copy, Debug, PartialEq, Eq)]
pub struct CellView {
    pub cell: Name,
    /// Only jobs with this tag fit, and where there is none only jobs without one.
    pub tag: Option<Name>,
    pub totals: Amounts,
    /// What is left of the totals.
    pub free: Amounts,
    /// The containers of the job's process on all cells of the cell's zone. Those that ended by
    /// themselves aren't counted; 0 for a task.
    pub in_zone: u64,
    /// Those of them that are on the cell.
    pub on_cell: u64,
}
