use diego_names::{Instance, Name};

/// What is asked of a task.
#[derive(Clone, Copy, Debug, PartialEq, Eq)]
pub enum TaskMove {
    /// The cell runs it in this container.
    Start { instance: Instance, cell: Name },
    /// The container ended, with that outcome.
    Complete { instance: Instance, failed: bool },
    /// It is given up, which counts as a failure.
    Cancel,
    /// A client begins to take the outcome.
    Resolve,
    /// The client has taken the outcome.
    Delete,
    /// A client that began to take the outcome did not end, and another one may.
    Kick,
    /// No client has taken the outcome.
    Expire,
}
