//! The laws of the board's step, of its log and of its events.
#![tactic(auto)]

mod events;
mod hearing;
mod laws;

pub use events::events_tell_the_changes;
pub use hearing::readings_go_on;
pub use laws::{
    board_is_replayed, first_board_is_valid, legal_commands_keep_rows_valid,
    logs_replay_what_is_done, reached_rows_are_valid, refusals_change_nothing,
    runs_replay_what_was_legal, tasks_complete_once,
};
