use cell_records::JobName;
use diego_names::Name;

/// Where a job goes.
#[derive(Clone, Copy, Debug, PartialEq, Eq)]
pub enum Placement {
    On { job: JobName, cell: Name },
    /// No cell fitted the job when its turn came.
    NoRoom { job: JobName },
}
