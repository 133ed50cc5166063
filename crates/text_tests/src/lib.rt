//! Tests of the text of scenarios: what is read, what is printed, and what is told of a phase.
#![tactic(auto)]

#[cfg(test)]
mod phases;
#[cfg(test)]
mod printing;
#[cfg(test)]
mod reading;
