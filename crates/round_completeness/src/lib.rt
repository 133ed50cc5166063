//! Which rounds of convergence are complete.
#![tactic(auto)]

mod laws;

pub use laws::{
    placements_have_room, rounds_auction_what_is_left, rounds_decline_no_start,
    rounds_lose_by_the_ends, rounds_that_nothing_disturbs_are_complete,
};
