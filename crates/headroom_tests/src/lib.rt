//! Tests of what the planner prints.
#![tactic(auto)]

#[cfg(test)]
mod tables;
