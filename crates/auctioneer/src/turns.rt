//! The order in which jobs are placed.
ghost use Rattle.std.specs.Prelude.{◌≡◌, IfOk};
ghost use Rattle.auctioneer.specs.Asked.{AreJobs};
ghost use Rattle.auctioneer.specs.Order.{turn_of, in_order};

use cell_records::{Job, JobName};
use diego_names::{Name, OutOfMemory};
use std::alloc::Global;
use std::cmp::Reverse;

// What decides when a job is placed: the first of these in which two jobs differ.
#[derive(Clone, Copy, PartialEq, Eq, PartialOrd, Ord)]
pub(crate) struct Turn {
    class: u8,
    memory: Reverse<u32>,
    name: Name,
    index: u32,
}

fn turn_of(job: &Job) -> Turn
    ensures { result ≡ turn_of job.now }
{
    let memory = Reverse(job.memory);
    match job.job {
        JobName::Lrp(key) => Turn {
            class: if key.index == 0 { 0 } else { 2 },
            memory,
            name: key.process,
            index: key.index,
        },
        JobName::Task(name) => Turn {
            class: 1,
            memory,
            name,
            index: 0,
        },
    }
}

/// The jobs in the order in which they are placed.
pub fn in_order(alloc: Global, jobs: &[Job]) -> Result<Vec<Job>, OutOfMemory>
    requires { AreJobs jobs.now }
    ensures { IfOk result (λ sorted. sorted.items ≡ in_order jobs.now) }
{
    let mut sorted = Vec::from_slice(alloc, jobs)?;
    sorted.sort_unstable_by_key(turn_of);
    Ok(sorted)
}
