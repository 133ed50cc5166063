use crate::cases::{EachLost, TurnsTaken};
use crate::drains::Drained;
use crate::fits::Fitted;
use crate::losses::Lost;
use crate::stock::Shown;

/// The answer to a question.
#[derive(Debug, Drop)]
pub enum Finding {
    Show(Shown),
    Lose(Lost),
    LoseEach(EachLost),
    LoseInTurn(TurnsTaken),
    Drain(Drained),
    Fit(Fitted),
}

/// The answer to the question of a line.
#[derive(Debug, Drop)]
pub struct Found {
    /// Counts from 1.
    pub line: u32,
    pub finding: Finding,
}
