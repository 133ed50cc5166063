//! Which jobs a drain places, and how often.
ghost use Rattle.std.specs.Prelude.{◌≡◌, ◌+◌, ◌<◌, ◌^◌, cond, fold, max, IfOk, OnOk};
ghost use Rattle.auctioneer.specs.Laws.{job_in};
ghost use Rattle.cell_drains.specs.Moves.{as_counted, most_moves, placed_in, same_job, times_by, times_moved};
ghost use Rattle.cell_records.specs.declared.job_name.JobName.{JobName as AJob};
ghost use Rattle.room_facts.specs.Placings.{is_placed};

use auctioneer::Placement;
use cell_records::JobName;
use diego_names::{Name, OutOfMemory};
use std::alloc::Global;
use std::collections::HashMap;

fn job_in(placement: &Placement) -> JobName
    ensures { result ≡ job_in placement.now }
{
    match placement {
        Placement::On { job, .. } => *job,
        Placement::NoRoom { job } => *job,
    }
}

fn is_placed(placement: &Placement) -> bool
    ensures { result ≡ is_placed placement.now }
{
    match placement {
        Placement::On { .. } => true,
        Placement::NoRoom { .. } => false,
    }
}

// The jobs that have a cell.
pub(crate) fn placed_in(
    alloc: Global,
    placements: &[Placement],
) -> Result<Vec<JobName>, OutOfMemory>
    ensures { IfOk result (λ jobs. jobs.items ≡ placed_in placements.now) }
{
    let jobs = placements
        .iter()
        .filter(|placement| is_placed(placement))
        .map(job_in)
        .collect(alloc)?;
    Ok(jobs)
}

// A job as it is counted: of a task the index is 0.
#[derive(Clone, Copy, PartialEq, Eq, Hash)]
pub(crate) struct Counted {
    is_task: bool,
    name: Name,
    index: u32,
}

fn as_counted(job: &JobName) -> Counted
    ensures { result ≡ as_counted job.now }
{
    match job {
        JobName::Lrp(key) => Counted {
            is_task: false,
            name: key.process,
            index: key.index,
        },
        JobName::Task(name) => Counted {
            is_task: true,
            name: *name,
            index: 0,
        },
    }
}

// How often the job is there, as it is looked up.
fn times_in(times: &HashMap<Counted, u64>, job: &JobName) -> u64
    ensures { result ≡ times_by times.now job.now }
{
    let key = as_counted(job);
    times.get(&key).copied().unwrap_or(0)
}

// The job is there once more.
fn count_one(times: &mut HashMap<Counted, u64>, job: &JobName) -> Result<(), OutOfMemory>
    requires { times_by times.old job.now + 1 < 2 ^ 64 }
    ensures { OnOk result ((other : AJob) → times_by times.new other
        ≡ times_by times.old other + cond (same_job job.now other) 1 0) }
{
    let count = times_in(times, job);
    let key = as_counted(job);
    times.insert(key, count + 1)?;
    Ok(())
}

// How often each of the jobs is there.
fn count_all(alloc: Global, jobs: &[JobName]) -> Result<HashMap<Counted, u64>, OutOfMemory>
    ensures { IfOk result (λ times. (job : AJob) → times_by times job ≡ times_moved jobs.now job) }
{
    let mut times = HashMap::new(alloc);
    for job in jobs {
        count_one(&mut times, job)?;
    }
    Ok(times)
}

// The most that one of the jobs is there, as they are looked up.
fn most_in(times: &HashMap<Counted, u64>, jobs: &[JobName]) -> u64
    ensures { result ≡ fold (λ m job. max m (times_by times.now job)) 0 jobs.now }
{
    let mut most = 0;
    for job in jobs {
        most = most.max(times_in(times, job));
    }
    most
}

// The most that one of the jobs is there. Each job is looked up twice.
pub(crate) fn most_moves(alloc: Global, jobs: &[JobName]) -> Result<u64, OutOfMemory>
    ensures { IfOk result (λ most. most ≡ most_moves jobs.now) }
{
    let times = count_all(alloc, jobs)?;
    Ok(most_in(&times, jobs))
}
