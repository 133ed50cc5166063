//! A whole round of convergence, and its laws.
#![tactic(auto)]

mod converging;
mod laws;

pub use converging::converge;
pub use laws::{
    complete_rounds_converge, complete_rounds_take_all, plan_is_refused_for_room,
    rounds_alone_are_refused_for_room, rounds_have_accounts, rounds_hear_what_gets_through,
    rounds_lose_what_the_wire_lost, work_is_refused_for_room,
};
