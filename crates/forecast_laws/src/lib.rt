//! A plan of headroom foretells the round of the board.
#![tactic(auto)]

mod laws;

pub use laws::{
    displaced_jobs_find_room, losses_go_as_planned, losses_leave_the_site, plans_are_rounds,
    records_read_the_site, room_leaves_nothing_waiting, room_makes_rounds_complete,
    rounds_leave_what_plans_leave,
};
