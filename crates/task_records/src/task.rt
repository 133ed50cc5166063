use crate::state::TaskState;
use crash_backoff::Moment;
use diego_names::Name;

/// Work that runs once, on one cell, and whose outcome is kept until a client has taken it.
#[derive(Clone, Copy, Debug, PartialEq, Eq)]
pub struct Task {
    pub name: Name,
    /// The number of transitions in the board's life before it was made. It tells the task from a
    /// later one of its name.
    pub birth: u64,
    pub state: TaskState,
    /// When the row last changed.
    pub since: Moment,
    /// In MB.
    pub memory: u32,
    /// In MB.
    pub disk: u32,
    /// Only cells with this tag may run it, and where there is none only cells without one.
    pub tag: Option<Name>,
}
