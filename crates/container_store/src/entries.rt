//! The order in which the containers of all jobs are kept: by job, and those of one job by number.
ghost use Rattle.std.specs.Prelude.{◌≡◌};
ghost use Rattle.container_store.specs.Entries.{job_key, job_entry};

use cell_records::JobName;
use diego_names::Name;

/// A job as it is ordered: by index, which few jobs of a cell share and which is compared at once,
/// and then by name. A task has no index.
#[derive(Clone, Copy, Debug, PartialEq, Eq, PartialOrd, Ord)]
pub(crate) struct JobKey {
    pub(crate) index: Option<u32>,
    pub(crate) name: Name,
}

/// One container of a job.
#[derive(Clone, Copy, Debug, PartialEq, Eq, PartialOrd, Ord)]
pub(crate) struct JobEntry {
    pub(crate) job: JobKey,
    pub(crate) number: u32,
}

fn job_key(job: &JobName) -> JobKey
    ensures { result ≡ job_key job.now }
{
    match job {
        JobName::Lrp(key) => JobKey {
            index: Some(key.index),
            name: key.process,
        },
        JobName::Task(name) => JobKey {
            index: None,
            name: *name,
        },
    }
}

pub(crate) fn job_entry(job: &JobName, number: u32) -> JobEntry
    ensures { result ≡ job_entry job.now number }
{
    JobEntry {
        job: job_key(job),
        number,
    }
}
