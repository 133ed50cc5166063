//! Keys in groups, and groups by moments, in memory that was taken before.
#![tactic(auto)]

mod calendar;
mod causes;
mod due;
mod endings;
mod entries;
mod groups;
mod leases;
mod shifts;
mod tag;
mod timed;
mod watch;
mod watched;

pub use calendar::Calendar;
pub use endings::{Ending, Endings};
pub use groups::Groups;
pub use leases::Leases;
pub use shifts::{shift_cell, shift_domain};
pub use tag::Tag;
pub use timed::Timed;
pub use watch::{Times, Watch};
pub use watched::Watched;
