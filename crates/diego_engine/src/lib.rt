//! All that the program does.
#![tactic(auto)]

mod in_memory;
mod laws;
mod top;

pub use in_memory::diego_top_in_memory;
pub use laws::{
    acknowledged_items_outlive_runs, phases_are_kept_from_their_ends, settled_boards_are_kept,
    the_next_run_finds_the_log,
};
pub use program_ends::TopEnd;
pub use top::diego_top;
