//! A line of output is one object, written member by member, and a newline.
#![tactic(auto)]

mod line;
mod member;
mod spelled;

pub use line::{line_begun, line_ended};
pub use member::{
    begin, begin_list, end, end_list, put_key, put_number, put_optional_instance,
    put_optional_name, put_optional_number, put_optional_truth, put_text, put_truth,
};
pub use spelled::instance_text;
