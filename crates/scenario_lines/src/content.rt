//! What a line says.
use crate::act::{Act, Loss};
use crate::actor::Actor;
use crash_backoff::Moment;
use diego_names::{List, Name};

/// What a line says. Definitions speak of it; the code has it in two parts, an [`Outline`] and an act.
#[derive(Debug, Drop)]
pub enum Content {
    /// A phase begins.
    Phase(Moment),
    /// An actor acts.
    Acts(ActLine),
    /// A round of convergence is run.
    Round(Losses),
}

/// What an actor does, and how often.
#[derive(Clone, Copy, Debug, PartialEq, Eq)]
pub struct ActLine {
    pub actor: Actor,
    pub act: Act,
    /// What is lost of the first board call of the first run.
    pub lost: Option<Loss>,
    /// From 1 to 1,000.
    pub times: u32,
}

/// What a line says, but for what its actor does: that is long, so it is kept where the caller has room for it.
#[derive(Debug, Drop)]
pub enum Outline {
    /// A phase begins.
    Phase(Moment),
    /// An actor acts.
    Acts(ActHead),
    /// A round of convergence is run.
    Round(Losses),
}

/// Who acts, and how often.
#[derive(Clone, Copy, Debug, PartialEq, Eq)]
pub struct ActHead {
    pub actor: Actor,
    /// What is lost of the first board call of the first run.
    pub lost: Option<Loss>,
    /// From 1 to 1,000.
    pub times: u32,
}

/// The cells to which calls of a round are lost, or from which replies are. Names of no cell
/// have no effect.
#[derive(Debug, Drop)]
pub struct Losses {
    pub ask: List<Name>,
    pub stop: List<Name>,
    pub start: List<Name>,
    /// The reply of the board to the claim that a start makes.
    pub reply: List<Name>,
}
