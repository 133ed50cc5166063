//! Tests of a phase on threads: who goes on while another one is held up.
#![tactic(auto)]

#[cfg(test)]
mod tests;
