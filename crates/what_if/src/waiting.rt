//! What waits for a cell.
ghost use Rattle.std.specs.Prelude.{◌≡◌, map, filter, IfOk};
ghost use Rattle.what_if.specs.Holders.{found_before, does_wait_by, waits_by};
ghost use Rattle.what_if.specs.Waiting.{instance_job};

use crate::site::{Site, Wanted};
use crate::standing::Holders;
use cell_records::{Job, JobName};
use diego_names::{Name, OutOfMemory};
use std::alloc::Global;

pub(crate) fn instance_job(wanted: &Wanted) -> Job
    ensures { result ≡ instance_job wanted.now }
{
    Job {
        job: JobName::Lrp(wanted.key),
        memory: wanted.memory,
        disk: wanted.disk,
        tag: wanted.tag,
    }
}

/// Whether no cell holds the instance, and it isn't crashed.
pub fn does_wait(holders: &Holders, wanted: &Wanted) -> bool
    ensures { result ≡ does_wait_by holders.now wanted.now }
{
    holders.holder(&wanted.key).is_none() && !wanted.crashed
}

// The instances that wait where instances are held so, by key.
fn waiting_instances(alloc: Global, site: &Site, holders: &Holders) -> Result<Vec<Job>, OutOfMemory>
    ensures { IfOk result (λ jobs. jobs.items
        ≡ map instance_job (filter (does_wait_by holders.now) site.now.wanted)) }
{
    let jobs = site
        .wanted
        .items()
        .iter()
        .filter(|wanted| does_wait(holders, wanted))
        .map(instance_job)
        .collect(alloc)?;
    Ok(jobs)
}

// What waits where instances are held so: instances by key, then tasks.
pub(crate) fn waits(alloc: Global, site: &Site, holders: &Holders) -> Result<Vec<Job>, OutOfMemory>
    ensures { IfOk result (λ jobs. jobs.items ≡ waits_by site.now holders.now) }
{
    let mut jobs = waiting_instances(alloc, site, holders)?;
    let mut tasks = Vec::from_slice(alloc, site.pending.items())?;
    jobs.append(&mut tasks)?;
    Ok(jobs)
}

/// The cell that holds the job while nothing is lost, by the holders of that time.
pub fn held_before(holders: &Holders, job: &JobName) -> Option<Name>
    ensures { result ≡ found_before holders.now job.now }
{
    match job {
        JobName::Lrp(key) => holders.holder(key),
        JobName::Task(_) => None,
    }
}
