//! What a planner finds out, as lines of JSON.
#![tactic(auto)]

mod counts;
mod line_kinds;
mod notes;
mod verdicts;
mod words;

pub use counts::tried;
pub use line_kinds::lines;
pub use notes::{Note, notes_of};
pub use verdicts::worst;
pub use words::{LackCount, each_word, lacking, order_word, verdict_word};
