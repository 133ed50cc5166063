use diego_names::{Instance, StateName};

/// Why a move is refused. The row stays as it was.
#[derive(Clone, Copy, Debug, PartialEq, Eq)]
pub enum TaskRefusal {
    /// No such move leads from this state.
    WrongState { state: StateName },
    /// Another container has the task.
    WrongInstance { have: Instance },
    /// The move may be made from this second on, which may lie past the last moment.
    NotDue { at: u64 },
}
