//! A disk over two files, proved over the record of its calls of the system.
#![tactic(auto)]

mod call_error;
mod calls;
mod contents;
mod file_disk;
mod laws;
mod measuring;
mod memory_calls;
mod mishap;
mod notes;
mod reading;
mod record;
mod syncing;
mod tries;
mod writing;

pub use call_error::CallError;
pub use calls::Calls;
pub use contents::Contents;
pub use file_disk::FileDisk;
pub use laws::the_answers_of_the_model_are_believed;
pub use memory_calls::MemoryCalls;
pub use mishap::{Mishap, MishapKind};
pub use record::Record;
