//! Fields of bytes: big-endian numbers, names, truth values and instances.
#![tactic(auto)]

mod fault;
mod laws;
mod place;
mod reading;
mod writing;

pub use fault::FieldFault;
pub use laws::{
    fields_have_their_length, instances_are_fields, names_and_truths_are_fields,
    numbers_are_fields, optional_fields_are_bounded,
};
pub use reading::{
    read_instance, read_name, read_optional_instance, read_optional_name, read_truth, read_u8,
    read_u16, read_u32, read_u64,
};
pub use writing::{
    put_instance, put_name, put_optional_instance, put_optional_name, put_truth, put_u8, put_u16,
    put_u32, put_u64,
};

#[cfg(test)]
mod tests;
