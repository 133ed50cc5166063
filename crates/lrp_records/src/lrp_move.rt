use diego_names::{Instance, Name};

/// What is asked of the ORDINARY row of an instance.
#[derive(Clone, Copy, Debug, PartialEq, Eq)]
pub enum LrpMove {
    /// The cell has made room for it in this container.
    Claim { instance: Instance, cell: Name },
    /// The cell runs it in this container.
    Start { instance: Instance, cell: Name },
    /// The container ended by itself.
    Crash { instance: Instance },
    /// The container is given back before or while it runs.
    Unclaim { instance: Instance },
    /// A crashed row is tried again.
    Restart,
    /// The row is dropped: one that no container has, or the one that this container has.
    Remove { instance: Option<Instance> },
    /// No cell could take it.
    PlaceFail,
}
