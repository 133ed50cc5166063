use diego_names::Name;

/// A process that a client wants to run, and how each of its instances runs.
#[derive(Clone, Copy, Debug, PartialEq, Eq)]
pub struct Desired {
    pub process: Name,
    /// The client's word for what it keeps together.
    pub domain: Name,
    /// How many instances are wanted.
    pub instances: u32,
    /// In MB, for each instance.
    pub memory: u32,
    /// In MB, for each instance.
    pub disk: u32,
    /// Only cells with this tag may run it, and where there is none only cells without one.
    pub tag: Option<Name>,
    pub route: Option<Name>,
    pub port: u16,
}
