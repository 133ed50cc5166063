//! Commands in bytes, as the journal keeps them, and values in bytes, field by field.
#![tactic(auto)]

mod fault;
mod fields;
mod laws;
mod ops;
mod reading;
mod trailing;
mod writing;

pub use fault::CodecFault;
pub use fields::{Fields, read_old_actual};
pub use laws::{
    commands_are_read_back, commands_have_one_spelling, no_spelling_begins_another,
    spellings_are_bounded,
};
pub use reading::read_command;
pub use writing::write_command;
