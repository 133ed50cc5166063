//! The scenario of a number: a large one, which is made again from that number alone.
#![tactic(auto)]

mod draws;
mod lines;
mod making;

pub use making::generate;

#[cfg(test)]
mod tests;
