//! Work at each place of a list, where only some places have something to do: those at once, each on a
//! thread of its own.
#![tactic(auto)]

mod forks;

pub use forks::for_each_busy;

#[cfg(test)]
mod tests;
