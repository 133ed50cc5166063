// The fault of a port of the outside.

/// The outside didn't do what was asked, and the port's count of faults says so.
#[derive(Clone, Copy, Debug, PartialEq, Eq)]
pub struct Failed;
