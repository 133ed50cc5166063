//! Tests of a pair of boards over disks in memory: its answers, stops and faults in each device call, and the
//! take-over.
#![tactic(auto)]

#[cfg(test)]
mod asserts;
#[cfg(test)]
mod calls;
#[cfg(test)]
mod closing;
#[cfg(test)]
mod failing;
#[cfg(test)]
mod making;
#[cfg(test)]
mod playing;
#[cfg(test)]
mod sharing;
#[cfg(test)]
mod stops;
#[cfg(test)]
mod taking_over;
#[cfg(test)]
mod threads;
