use crate::amounts::Amounts;
use crate::container::Container;
use diego_names::{List, Name};

/// What a cell's rep says of it when it is asked.
#[derive(Debug, Drop)]
pub struct Answer {
    pub cell: Name,
    pub zone: Name,
    pub tag: Option<Name>,
    /// The epoch under which the cell joined.
    pub epoch: u64,
    pub evacuating: bool,
    pub totals: Amounts,
    /// What its containers leave of the totals.
    pub free: Amounts,
    /// The last number that the cell gave to a container, and 0 before the first.
    pub last: u32,
    pub containers: List<Container>,
}
