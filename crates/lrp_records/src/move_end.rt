use crate::actual::Actual;
use crate::refusal::LrpRefusal;

/// How a move ends.
#[derive(Clone, Copy, Debug, PartialEq, Eq)]
pub enum MoveEnd {
    /// The row becomes this one.
    Changed(Actual),
    /// The row is dropped.
    Gone,
    /// The row is already what the move asks for, and stays as it was.
    Same,
    Refused(LrpRefusal),
}
