//! Answers, reports, events, rows and counts as lines of text.
#![tactic(auto)]

mod answer;
mod asked;
mod check;
mod event;
mod round;
mod rows;
mod spelled;
mod summary;
mod why;
mod word;

pub use answer::answer_text;
pub use asked::{ActWord, Asked};
pub use check::{Check, check_text};
pub use event::{event_text, row_text};
pub use round::{failed_round_text, report_text};
pub use spelled::{job_text, subject_text};
pub use summary::{Summary, summary_text};
pub use why::{rep_why_text, why_text};
pub use word::{act_word, call_word};
