//! The laws of a round of convergence: what its commands leave of the rows, and when all is as it
//! should be.
#![tactic(auto)]

mod laws;

pub use laws::{
    claims_converge, plan_leaves_containers_held, rounds_converge, rounds_keep_the_ground,
    stops_leave_no_strays, work_leaves_nothing_but_suspicions,
};
