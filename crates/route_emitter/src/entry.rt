use diego_names::{Instance, List, Name};

/// One way to an instance that runs. Entries are ordered by their fields, in this order.
#[derive(Clone, Copy, Debug, PartialEq, Eq, PartialOrd, Ord)]
pub struct RouteEntry {
    /// What a client asks for, as a host's name.
    pub route: Name,
    pub process: Name,
    /// The instance's number among those of its process, from 0.
    pub index: u32,
    /// The container that runs it.
    pub instance: Instance,
    /// The cell on which the container is.
    pub cell: Name,
    /// The port on which the process listens.
    pub port: u16,
}

/// What a taking of events changed in the table. Both lists are sorted, and have each entry once.
#[derive(Debug, Drop)]
pub struct RouteChange {
    /// What the table has now, and had not before.
    pub register: List<RouteEntry>,
    /// What the table had before, and has not now.
    pub unregister: List<RouteEntry>,
}
