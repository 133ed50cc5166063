use diego_names::Name;

/// What ends at a second that a row of the board tells.
#[derive(Clone, Copy, Debug, PartialEq, Eq, Hash)]
pub enum Term {
    /// The lease of a cell under the epoch with which it joined.
    OfEpoch { cell: Name, epoch: u64 },
    /// A client's word that its list of processes in a domain is whole.
    OfDomain { name: Name },
}

/// Why a subject is asked for something.
#[derive(Clone, Copy, Debug, PartialEq, Eq, Hash)]
pub enum Cause {
    /// At any moment.
    Always,
    /// From this second on.
    From(u64),
    /// Once it is over.
    Past(Term),
    /// As long as it isn't over.
    While(Term),
    /// As long as the cell has a row of another epoch.
    Anew { cell: Name, epoch: u64 },
}

/// The causes of a place among the actual rows: three at most.
#[derive(Clone, Copy, Debug, PartialEq, Eq)]
pub struct Causes {
    pub first: Option<Cause>,
    pub second: Option<Cause>,
    pub third: Option<Cause>,
}

/// The epoch with which a cell joined, and the second at which its lease ends.
#[derive(Clone, Copy, Debug, PartialEq, Eq)]
pub struct Lease {
    pub epoch: u64,
    pub until: u64,
}
