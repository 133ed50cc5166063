//! Tests of the board's step: each command by itself, the lives of boards, the step in place beside
//! the plain one, the index that it works on, and rows that follow by events.
#![tactic(auto)]

#[cfg(test)]
mod indexes;
#[cfg(test)]
mod laws;
#[cfg(test)]
mod plain;
#[cfg(test)]
mod rows;
#[cfg(test)]
mod tests;
