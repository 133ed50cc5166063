use diego_names::OutOfMemory;

/// Why a store does not do what it was asked. Nothing changes then.
#[derive(Clone, Copy, Debug, PartialEq, Eq)]
pub enum StoreRefusal {
    /// The container would have more memory than is free.
    NoMemoryLeft,
    /// The container would have more disk than is free.
    NoDiskLeft,
    /// The cell has as many containers as it may have, or no number that it never gave.
    NoSlot,
    /// There is no such container.
    Unknown,
    /// The container is there, in a state from which this does not happen.
    WrongState,
}

/// Why there is no new container. The store is as it was.
#[derive(Clone, Copy, Debug, PartialEq, Eq)]
pub enum ReserveFault {
    Refused(StoreRefusal),
    /// There is room on the cell, and no memory for its record.
    OutOfMemory,
}
