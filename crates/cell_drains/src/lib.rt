//! A rolling update: what happens where cells are emptied in batches, one after another.
#![tactic(auto)]

mod batches;
mod changes;
mod counts;
mod drained;
mod drains;
mod groups;
mod laws;
mod levels;
mod moves;
mod seats;
mod sites;
mod steps;

pub use drained::drain;
pub use laws::{
    batches_are_of_one_kind, drains_are_chains, no_cell_goes_twice, steps_keep_the_wanted,
};
pub use levels::levelled;
pub use steps::after_step;
