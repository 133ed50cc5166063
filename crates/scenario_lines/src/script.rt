//! What a scenario says.
use crate::act::{Act, Loss};
use crate::actor::Actor;
use crash_backoff::Moment;
use diego_names::{List, Name};

/// A scenario: phases that are run one after the other.
#[derive(Debug, Drop)]
pub struct Script {
    /// Who acts, in the order in which they first do.
    pub actors: List<Actor>,
    pub phases: List<Phase>,
}

/// What stands from one `at` to the next.
#[derive(Debug, Drop)]
pub struct Phase {
    /// The moment of the phase, never less than that of the one before.
    pub at: Moment,
    /// The lines of actors, in their order.
    pub lines: List<Line>,
    /// Its round, if it has one, which is run as its last.
    pub round: Option<RoundLine>,
}

/// A line of an actor.
#[derive(Clone, Copy, Debug, PartialEq, Eq)]
pub struct Line {
    /// The number of the line; lines count from 1.
    pub line: u32,
    /// The number of the actor; actors count from 1.
    pub actor: u32,
    pub act: Act,
    /// What is lost of the first board call of the first run.
    pub lost: Option<Loss>,
    /// How often the line is run: from 1 to 1,000.
    pub times: u32,
}

/// A round of convergence, and the cells to which calls of it are lost. Names of no cell have no
/// effect.
#[derive(Debug, Drop)]
pub struct RoundLine {
    /// The number of the line; lines count from 1.
    pub line: u32,
    pub lose_ask: List<Name>,
    pub lose_stop: List<Name>,
    pub lose_start: List<Name>,
    /// The cells whose reply from the board is lost when a start makes its call.
    pub lose_reply: List<Name>,
}
