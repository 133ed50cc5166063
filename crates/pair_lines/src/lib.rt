//! The lines of a pair: which scripts are one for it, the answers to their lines, and what is told of its end.
#![tactic(auto)]

mod answer;
mod answered;
mod faults;
mod script;
mod summary;
mod word;

pub use answer::answer_text;
pub use answered::{PairAnswered, PairEnded};
pub use faults::{other_line_text, standby_damaged_text, standby_no_board_line, unequal_line};
pub use script::first_other;
pub use summary::{PairSummary, summary_text};
pub use word::read_number;
