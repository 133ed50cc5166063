//! The rows of a board in bytes, as the head of an area has them.
#![tactic(auto)]

mod fault;
mod keeping;
mod kept;
mod laws;
mod putting;
mod reading;
mod seen;
mod table;
mod writing;

pub use fault::HeadFault;
pub use kept::HeadRow;
pub use laws::{
    a_head_that_is_too_long_is_told_by_its_first_bytes, head_faults_lie_within_the_bytes,
    heads_are_read_back, heads_begin_with_their_transitions, heads_have_one_spelling,
    no_head_begins_another,
};
pub use putting::put_head;
pub use reading::{LONGEST_HEAD, read_head};
pub use writing::{Counts, ROW_BYTES, append_front, append_row, write_head};
