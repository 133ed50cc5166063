//! The records of tasks: what runs once, and how it may change.
#![tactic(auto)]

mod laws;
mod move_end;
mod move_kind;
mod moves;
mod refusal;
mod state;
mod steps;
mod task;

pub use laws::tasks_complete_once;
pub use move_end::TaskEnd;
pub use move_kind::TaskMove;
pub use moves::task_move;
pub use refusal::TaskRefusal;
pub use state::TaskState;
pub use task::Task;
