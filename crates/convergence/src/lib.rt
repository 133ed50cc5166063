//! What convergence asks of a board: of each cell, each instance and each task at most one command.
#![tactic(auto)]

mod asking;
mod holding;
mod laws;
mod placing;
mod planning;
mod report;
mod sorted;
mod steps;
mod straying;
mod telling;
mod working;

pub use laws::{
    plan_is_by_subject, plan_rises, same_work, subjects_are_ordered, work_is_by_subject, work_rises,
};
pub use planning::plan;
pub use report::Report;
pub use sorted::find_sorted;
pub use steps::Steps;
pub use straying::strays;
pub use working::work_of;
