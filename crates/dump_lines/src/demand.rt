use diego_names::Name;

/// What a job asks for.
#[derive(Clone, Copy, Debug, PartialEq, Eq)]
pub struct Demand {
    /// In MB.
    pub memory: u32,
    /// In MB.
    pub disk: u32,
    /// Only cells with this tag may run it, and where there is none only cells without one.
    pub tag: Option<Name>,
}
