ghost use Rattle.std.specs.Prelude.{◌≡◌};
ghost use Rattle.container_store.specs.Jobs.{is_same_job, is_job_in};

use cell_records::JobName;

/// Whether two jobs are one.
pub fn is_same_job(a: &JobName, b: &JobName) -> bool
    ensures { result ≡ is_same_job a.now b.now }
{
    a == b
}

/// Whether it is the job that is named, which each one is where none is named.
pub fn is_job_in(named: &Option<JobName>, job: &JobName) -> bool
    ensures { result ≡ is_job_in named.now job.now }
{
    match named {
        None => true,
        Some(one) => is_same_job(one, job),
    }
}
