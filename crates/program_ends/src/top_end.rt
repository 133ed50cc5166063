use bbs_model::Item;
use convergence::Report;
use locket::LockItem;
use scenario_lines::Answered;

/// How the program ended: its status, what it was given, and what it did.
pub struct TopEnd<S, K, D> {
    pub status: u8,
    pub source: S,
    pub sink: K,
    pub disk: D,
    /// The items of this run, in the order of the board's log.
    pub log: Vec<Item>,
    /// The disk's clock at the end of the call of each item, of the board or of the locket.
    pub marks: Vec<u64>,
    /// The calls of the phases that ran, and how each ended.
    pub answers: Vec<Answered>,
    /// The reports of their rounds, in the order of the phases.
    pub reports: Vec<Report>,
    /// The items of a script of lock commands, in the order of the locket's log.
    pub locks: Vec<LockItem>,
}
