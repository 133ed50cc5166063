//! Tests of what keeps a board in bytes: disks, the journal, its switches, commands and heads.
#![tactic(auto)]

#[cfg(test)]
mod asserts;
#[cfg(test)]
mod codec;
#[cfg(test)]
mod files;
#[cfg(test)]
mod heads;
#[cfg(test)]
mod journal;
#[cfg(test)]
mod memory_disks;
#[cfg(test)]
mod snapshots;
