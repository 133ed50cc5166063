/// How far what is asked about finds room. Of several the worst counts, which is the last of them here.
#[derive(Clone, Copy, Debug, PartialEq, Eq)]
pub enum Verdict {
    /// Each job has room.
    Room,
    /// Some job has none where the auction placed the others. Another scheduler might have placed it.
    Unplaced,
    /// It is shown that not all have room, whatever the scheduler.
    Short,
}
