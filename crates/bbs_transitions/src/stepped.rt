use bbs_model::{BoardRefusal, Events};

/// What came of a command.
#[derive(Clone, Copy, Debug, PartialEq, Eq)]
pub enum Stepped {
    /// It was legal, and these rows changed.
    Done(Events),
    /// The rows were already what it asks for.
    Same,
    /// It wasn't legal, and nothing changed.
    Refused(BoardRefusal),
}
