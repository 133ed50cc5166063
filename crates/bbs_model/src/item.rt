use crate::Command;

/// An entry of the board's log, with the number of its caller.
#[derive(Clone, Copy, Debug, PartialEq, Eq)]
pub enum Item {
    /// The transition is acknowledged: each later recovery has it.
    Done(u32, Command),
    /// The disk failed while it was stored: it counts as not done, and may show after a stop.
    Doubt(u32, Command),
}
