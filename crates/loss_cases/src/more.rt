//! More instances of a process, as jobs.
ghost use Rattle.std.specs.Prelude.{◌≡◌, ◌≤◌, ◌^◌, IfOk};
ghost use Rattle.loss_cases.specs.Fits.{behind, job_more, jobs_more, next_index};

use cell_records::{Job, JobName};
use diego_names::{Key, Name, OutOfMemory};
use dump_lines::Demand;
use std::alloc::Global;
use what_if::{Wanted, with_proxy};

// The number behind that of an instance, if it is of the process.
fn behind(process: &Name, wanted: &Wanted) -> u64
    ensures value { result ≡ behind process.now wanted.now }
    ensures most { result ≤ 2 ^ 32 }
{
    if *process == wanted.key.process {
        u64::from(wanted.key.index) + 1
    } else {
        0
    }
}

// The number behind the greatest one that is wanted of the process.
pub(crate) fn next_index(process: &Name, wanted: &[Wanted]) -> u64
    ensures value { result ≡ next_index process.now wanted.now }
    ensures most { result ≤ 2 ^ 32 }
{
    let mut next = 0;
    for instance in wanted {
        next = next.max(behind(process, instance));
    }
    next
}

// What is asked for: instances of a process, beside each of which the proxy takes so much memory.
#[derive(Clone, Copy)]
pub(crate) struct More {
    pub(crate) process: Name,
    pub(crate) proxy: u32,
    pub(crate) demand: Demand,
}

// An instance more. Its number ends at the last one of 32 bits.
pub(crate) fn job_more(more: &More, index: u64) -> Job
    ensures { result ≡ job_more more.now.process more.now.proxy more.now.demand index }
{
    let last = u64::from(u32::MAX);
    let key = Key {
        process: more.process,
        index: index.min(last) as u32,
    };
    Job {
        job: JobName::Lrp(key),
        memory: with_proxy(more.proxy, more.demand.memory),
        disk: more.demand.disk,
        tag: more.demand.tag,
    }
}

// So many instances more, numbered from there.
pub(crate) fn jobs_more(
    alloc: Global,
    more: &More,
    first: u64,
    instances: u32,
) -> Result<Vec<Job>, OutOfMemory>
    requires { first ≤ 2 ^ 32 }
    ensures { IfOk result (λ jobs. jobs.items
        ≡ jobs_more (job_more more.now.process more.now.proxy more.now.demand) first instances) }
{
    let jobs = (0..instances)
        .map(|number| job_more(more, first + u64::from(number)))
        .collect(alloc)?;
    Ok(jobs)
}
