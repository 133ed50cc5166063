use bbs_model::Rows;

/// What no call of a board changes. No value of this type is made: it stands in clauses alone.
pub struct Origin<S> {
    /// The rows that the board was loaded with.
    pub base: Rows,
    /// The disk's clock at the end of the load.
    pub since: u64,
    /// The disk's count of faults at the end of the load.
    pub faults: u64,
    /// The board as it was when it was first shared.
    pub start: S,
}
