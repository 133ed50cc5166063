use diego_names::{Instance, StateName};

/// Why a move is refused. The row stays as it was.
#[derive(Clone, Copy, Debug, PartialEq, Eq)]
pub enum LrpRefusal {
    /// Another container has the row, or one has it where none was named.
    Held { by: Instance },
    /// No container has the row.
    NotRunning,
    /// Another container has the row.
    WrongInstance { have: Instance },
    /// The wait after the crash ends at this second.
    NotDue { at: u64 },
    /// It crashed so often that it is not tried again.
    GivenUp,
    /// No such move leads from this state.
    WrongState { state: StateName },
}
