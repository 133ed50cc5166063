//! The calls of the system on two files, through std: what a disk of files makes of them is proved,
//! and that each line here makes the call that it notes is read.
#![tactic(auto)]

mod folders;
mod identity;
mod locked;
mod real_calls;
mod two_files;

pub use file_calls::FileDisk;
pub use real_calls::RealCalls;

#[cfg(test)]
mod move_tests;
#[cfg(test)]
mod tests;
