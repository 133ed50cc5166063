//! The records of cells: what a cell has, what stands on it, and what its rep answers.
#![tactic(auto)]

mod amounts;
mod answer;
mod cell_row;
mod container;
mod container_state;
mod job;
mod job_name;

pub use amounts::Amounts;
pub use answer::Answer;
pub use cell_row::CellRow;
pub use container::Container;
pub use container_state::ContainerState;
pub use job::Job;
pub use job_name::JobName;

#[cfg(test)]
mod tests;
