//! Whole scenarios: who acts in them and what their phases are, or the first fault and its line.
#![tactic(auto)]

mod actors;
mod adding;
mod fault;
mod open_phase;
mod reader;
mod reading;
mod text_lines;

pub use fault::ScriptFault;
pub use reader::read_script;
pub use scenario_lines::{Line, Phase, RoundLine, Script};
pub use text_lines::{Rest, TextLine, next_line};
