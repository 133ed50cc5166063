//! All that the planner does: a dump is read, what is asked of it is answered, and the answers are printed.
#![tactic(auto)]

mod answering;
mod ending;
mod headroom_end;
mod planner;
mod printing;
mod reading;
mod top;
mod words;

pub use headroom_end::HeadroomEnd;
pub use planner::{Planned, Planner};
pub use top::headroom_top;
pub use words::Asked;
