//! One line of a scenario: what it says, or the first thing that is wrong with it.
#![tactic(auto)]

mod act;
mod actor;
mod answered;
mod cell;
mod client;
mod content;
mod flaw;
mod form;
mod form_of;
mod json;
mod kind;
mod laws;
mod line;
mod member;
mod members;
mod names;
mod needs;
mod round;
mod script;
mod shape;
mod values;

pub use act::{Act, Loss};
pub use actor::Actor;
pub use answered::Answered;
pub use content::{ActHead, ActLine, Content, Losses, Outline};
pub use flaw::{Flaw, LineError};
pub use json::json_of;
pub use kind::number_of;
pub use laws::acts_fit_their_actors;
pub use line::read_outline;
pub use names::name_as;
pub use script::{Line, Phase, RoundLine, Script};
