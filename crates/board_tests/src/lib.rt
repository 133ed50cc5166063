//! Tests of a real board over a disk in memory: its loads and calls, its checkpoints, its port, and a board that
//! threads share.
#![tactic(auto)]

#[cfg(test)]
mod asserts;
#[cfg(test)]
mod boards;
#[cfg(test)]
mod bytes;
#[cfg(test)]
mod checkpoints;
#[cfg(test)]
mod making;
#[cfg(test)]
mod ports;
#[cfg(test)]
mod shared;
