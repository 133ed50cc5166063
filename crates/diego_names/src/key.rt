use crate::name::Name;

/// Names one instance of a desired process. Keys are ordered by process, then by index.
#[derive(Clone, Copy, Debug, PartialEq, Eq, PartialOrd, Ord, Hash)]
pub struct Key {
    pub process: Name,
    /// Counts from 0.
    pub index: u32,
}
