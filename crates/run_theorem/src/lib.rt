//! What the run of a scenario means: what its answers and its reports say of the log.
#![tactic(auto)]

mod laws;

pub use laws::{
    answers_of_actors_stand, items_are_answered, played_runs_are_faithful, rounds_go_over_the_cells,
};
