//! What events tell of a board's rows, which rows a command may change, and what stays over for good.
#![tactic(auto)]

mod following;
mod laws;

pub use following::follow;
pub use laws::{
    commands_change_their_own_rows, due_events_say_so, events_lead_along, events_show,
    events_tell_all, what_is_over_stays_over,
};
