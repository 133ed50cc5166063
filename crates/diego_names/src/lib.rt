//! The names, keys and lists that every other crate speaks of.
#![tactic(auto)]

mod instance;
mod key;
mod list;
mod memory;
mod name;
mod orders;
mod state_name;
mod words;

pub use instance::Instance;
pub use key::Key;
pub use list::List;
pub use memory::OutOfMemory;
pub use name::{Name, NameFault};
pub use orders::{instances_are_ordered, keys_are_ordered, names_are_ordered};
pub use state_name::StateName;

#[cfg(test)]
mod tests;
