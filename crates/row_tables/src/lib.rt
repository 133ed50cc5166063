//! Tables as lists of rows whose keys strictly rise: what is found, put and removed, and its laws.
#![tactic(auto)]

mod laws;

pub use laws::{
    finds_after_put, finds_after_removal, finds_its_rows, keeps_rising, length_after_change,
    same_rows, sorts_to_table, sum_after_change,
};
