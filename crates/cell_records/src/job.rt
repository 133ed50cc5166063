use crate::job_name::JobName;
use diego_names::Name;

/// Work that waits for a cell.
#[derive(Clone, Copy, Debug, PartialEq, Eq)]
pub struct Job {
    pub job: JobName,
    /// In MB.
    pub memory: u32,
    /// In MB.
    pub disk: u32,
    /// Only cells with this tag may run it, and where there is none only cells without one.
    pub tag: Option<Name>,
}
