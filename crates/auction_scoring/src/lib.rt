//! How the auction compares cells for a job: which of them fit, and what each scores.
#![tactic(auto)]

mod cell_view;
mod fitting;
mod laws;
mod scores;
mod scoring;

pub use cell_view::CellView;
pub use fitting::fits;
pub use laws::{better_is_total, scores_are_ordered};
pub use scores::Score;
pub use scoring::{better, score};

#[cfg(test)]
mod tests;
