use crate::{BoardRefusal, Row};

/// A change of one row.
#[derive(Clone, Copy, Debug, PartialEq, Eq)]
pub enum Edit {
    /// The row is put in the place of the one at its key, if there is one.
    Put(Row),
    /// This row is taken away.
    Drop(Row),
}

/// What a command comes to on a board that may still make a transition.
#[derive(Clone, Copy, Debug, PartialEq, Eq)]
pub enum Attempt {
    Refuse(BoardRefusal),
    /// The rows are already what the command asks for.
    Keep,
    Change { first: Edit, second: Option<Edit> },
}
