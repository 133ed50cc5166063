//! Tests of whole scenarios: what a run prints, how it ends, and what it leaves of the board; of the program's words
//! and its endings, and of a scenario on a board that was loaded.
#![tactic(auto)]

#[cfg(test)]
mod engine;
#[cfg(test)]
mod given;
#[cfg(test)]
mod laws;
#[cfg(test)]
mod narrow;
#[cfg(test)]
mod playing;
#[cfg(test)]
mod tests;
#[cfg(test)]
mod words;
