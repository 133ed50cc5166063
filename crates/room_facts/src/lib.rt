//! What finds room on cells and what doesn't: what a job lacks on each, how many of a size they take,
//! and when it is shown that no placing exists.
#![tactic(auto)]

mod lacking;
mod laws;
mod reasons;
mod rooms;
mod shortage;
mod sums;

pub use lacking::{Lacking, has_tag, lacks};
pub use laws::{
    alike_jobs_fill, jobs_fit_where_nothing_lacks, reasons_are_exact, room_is_a_placing,
    short_has_no_placing,
};
pub use reasons::{Reasons, most_free, reasons_of};
pub use rooms::room_for;
pub use shortage::{as_large, is_short};
pub use sums::{Sums, asked_in_all, free_in_all};

#[cfg(test)]
mod tests;
