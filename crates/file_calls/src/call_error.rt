// Why a call of the system moved nothing.

/// An interrupted call may be made again. Nothing else is known of one that was refused.
#[derive(Clone, Copy, Debug, PartialEq, Eq)]
pub enum CallError {
    Interrupted,
    Refused,
}
