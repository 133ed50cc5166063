//! Tests of a locket over a disk in memory: its step, its answers, stops and faults in each device call, and lock
//! journals with a defect at each byte. Tests of a board behind a fence.
#![tactic(auto)]

#[cfg(test)]
mod asserts;
#[cfg(test)]
mod bytes;
#[cfg(test)]
mod calls;
#[cfg(test)]
mod defects;
#[cfg(test)]
mod failing;
#[cfg(test)]
mod fenced;
#[cfg(test)]
mod making;
#[cfg(test)]
mod steps;
#[cfg(test)]
mod stops;
