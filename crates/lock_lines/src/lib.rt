//! A script of lock commands, line by line, and the lines that answer it.
#![tactic(auto)]

mod answer;
mod command;
mod lock_line;
mod members;
mod operation;
mod reading;
mod summary;
mod why;

pub use answer::{answer_text, disk_text};
pub use lock_line::LockLine;
pub use reading::read_lock_lines;
pub use summary::summary_text;

#[cfg(test)]
mod tests;
