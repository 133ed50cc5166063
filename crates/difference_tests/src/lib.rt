//! Tests of the differences: lives of boards, with what the differences list beside what is worked out of all
//! rows.
#![tactic(auto)]

#[cfg(test)]
mod boards;
#[cfg(test)]
mod commands;
#[cfg(test)]
mod dice;
#[cfg(test)]
mod indexes;
#[cfg(test)]
mod kinds;
#[cfg(test)]
mod names;
#[cfg(test)]
mod next;
#[cfg(test)]
mod readings;
#[cfg(test)]
mod tests;
