//! The words of the program, and what it does at those that wait for nobody: it prepares a board, shows its
//! rows, or checks it.
#![tactic(auto)]

mod checking;
mod generating;
mod level;
mod number;
mod preparing;
mod records;
mod showing;
mod still;
mod word_table;
mod words;

pub use records::records_text;
pub use still::still_top;
pub use words::{Asked, read_words};
