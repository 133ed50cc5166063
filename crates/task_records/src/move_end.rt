use crate::refusal::TaskRefusal;
use crate::task::Task;

/// How a move ends.
#[derive(Clone, Copy, Debug, PartialEq, Eq)]
pub enum TaskEnd {
    /// The row becomes this one.
    Changed(Task),
    /// The row is dropped.
    Gone,
    /// The row is already what the move asks for, and stays as it was.
    Same,
    Refused(TaskRefusal),
}
