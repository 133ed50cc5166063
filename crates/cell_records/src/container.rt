use crate::container_state::ContainerState;
use crate::job_name::JobName;
use diego_names::Instance;

/// What a cell keeps of one piece of work.
#[derive(Clone, Copy, Debug, PartialEq, Eq)]
pub struct Container {
    pub instance: Instance,
    pub job: JobName,
    /// In MB.
    pub memory: u32,
    /// In MB.
    pub disk: u32,
    pub state: ContainerState,
}
