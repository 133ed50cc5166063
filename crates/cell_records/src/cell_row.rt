ghost use Rattle.std.specs.Prelude.{◌≡◌};
ghost use Rattle.cell_records.specs.Presence.{is_present};

use crate::amounts::Amounts;
use crash_backoff::Moment;
use diego_names::Name;

/// A cell that has joined, with its lease.
#[derive(Clone, Copy, Debug, PartialEq, Eq)]
pub struct CellRow {
    pub cell: Name,
    pub zone: Name,
    /// Only work with this tag runs here, and where there is none only work without one.
    pub tag: Option<Name>,
    pub totals: Amounts,
    /// The number of transitions in the board's life before it joined. It tells the cell from an
    /// earlier or later one of its name.
    pub epoch: u64,
    /// The second at which its lease ends, which may lie past the last moment.
    pub until: u64,
    /// Whether it is being emptied, so that no work is placed on it.
    pub evacuating: bool,
}

impl CellRow {
    /// Whether its lease still holds. In the second at which the lease ends it holds no more.
    pub fn is_present(&self, now: Moment) -> bool
        ensures { result ≡ is_present self.now now }
    {
        u64::from(now.0) < self.until
    }
}
