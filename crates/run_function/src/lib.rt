//! What a run of a scenario does where each phase has one actor or a round alone: laws, each on a
//! function that does nothing.
#![tactic(auto)]

mod laws;

pub use laws::{
    acts_are_alone, calls_are_alone, evacuations_are_alone, lines_are_run_alone, phases_are_alone,
    rounds_are_alone, runs_are_alone, runs_end_alone, turns_are_alone, worked_scenarios_print,
};
