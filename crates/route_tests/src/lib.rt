//! Tests of the table of routes that follows a board by its events.
#![tactic(auto)]

#[cfg(test)]
mod instances;
#[cfg(test)]
mod life;
#[cfg(test)]
mod making;
#[cfg(test)]
mod many;
#[cfg(test)]
mod processes;
