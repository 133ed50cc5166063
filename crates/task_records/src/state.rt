ghost use Rattle.std.specs.Prelude.{◌≡◌};
ghost use Rattle.task_records.specs.States.{task_state_name, runner_of, task_cell_of};

use diego_names::{Instance, Name, StateName};

/// What became of a task. A running one says which container holds it, and where.
#[derive(Clone, Copy, Debug, PartialEq, Eq)]
pub enum TaskState {
    /// No cell has it yet.
    Pending,
    Running { instance: Instance, cell: Name },
    /// It has ended, or was given up, and no client has taken the outcome.
    Completed { failed: bool },
    /// A client takes the outcome.
    Resolving { failed: bool },
}

impl TaskState {
    pub fn name(&self) -> StateName
        ensures { result ≡ task_state_name self.now }
    {
        match self {
            TaskState::Pending => StateName::Pending,
            TaskState::Running { .. } => StateName::Running,
            TaskState::Completed { .. } => StateName::Completed,
            TaskState::Resolving { .. } => StateName::Resolving,
        }
    }

    /// The container that has the task.
    pub fn runner(&self) -> Option<Instance>
        ensures { result ≡ runner_of self.now }
    {
        match self {
            TaskState::Running { instance, .. } => Some(*instance),
            TaskState::Pending | TaskState::Completed { .. } | TaskState::Resolving { .. } => None,
        }
    }

    /// The cell on which that container is.
    pub fn cell(&self) -> Option<Name>
        ensures { result ≡ task_cell_of self.now }
    {
        match self {
            TaskState::Running { cell, .. } => Some(*cell),
            TaskState::Pending | TaskState::Completed { .. } | TaskState::Resolving { .. } => None,
        }
    }
}
