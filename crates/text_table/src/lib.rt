//! Rows of texts as columns.
#![tactic(auto)]

mod columns;
mod lines;
mod table;

pub use table::{Side, Table};

#[cfg(test)]
mod tests;
