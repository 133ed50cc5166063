//! The site that a dump tells.
ghost use Rattle.std.specs.Prelude.{◌≡◌, map, filter, IfOk};
ghost use Rattle.dump_reader.specs.Facts.{IsDump};
ghost use Rattle.what_if.specs.Sites.{is_some_row, site_of, task_job, IsSite};

use crate::containers::cells_of;
use crate::silence::{silent_of, silent_stays};
use crate::site::{Site, Stay, Wanted};
use crate::wanting::wanted_of;
use cell_records::{Answer, Job, JobName};
use diego_names::{List, OutOfMemory};
use dump_lines::{DesiredRow, Place, TaskRow};
use dump_reader::Dump;
use std::alloc::Global;

fn task_job(task: &TaskRow) -> Job
    ensures { result ≡ task_job task.now }
{
    Job {
        job: JobName::Task(task.task),
        memory: task.demand.memory,
        disk: task.demand.disk,
        tag: task.demand.tag,
    }
}

// The tasks that wait, as jobs.
fn pending_of(alloc: Global, tasks: &[TaskRow]) -> Result<Vec<Job>, OutOfMemory>
    ensures { IfOk result (λ jobs. jobs.items ≡ map task_job (filter (λ t. t.waits) tasks.now)) }
{
    let jobs = tasks
        .iter()
        .filter(|task| task.waits)
        .map(task_job)
        .collect(alloc)?;
    Ok(jobs)
}

/// Whether there is a row.
pub fn is_some_row(rows: &[DesiredRow]) -> bool
    ensures { result ≡ is_some_row rows.now }
{
    !rows.is_empty()
}

fn site_from(
    cells: List<Answer>,
    silent: Vec<Place>,
    silent_stays: Vec<Stay>,
    wanted: Vec<Wanted>,
    pending: Vec<Job>,
    told_desired: bool,
) -> Site
    ensures { result ≡ record {
      cells = cells;
      silent = silent.items;
      silent_stays = silent_stays.items;
      wanted = wanted.items;
      pending = pending.items;
      told_desired = told_desired;
    } }
{
    Site {
        cells,
        silent: List::from(silent),
        silent_stays: List::from(silent_stays),
        wanted: List::from(wanted),
        pending: List::from(pending),
        told_desired,
    }
}

impl Site {
    /// The site that a dump tells. It costs a look-up or a comparison of names for each line, each
    /// container and each wanted instance, and the logarithm of their number for each that is sorted.
    pub fn of(alloc: Global, dump: &Dump) -> Result<Site, OutOfMemory>
        requires { IsDump dump.now }
        ensures value { IfOk result (λ site. site ≡ site_of dump.now) }
        ensures sound { IfOk result IsSite }
    {
        let cells = cells_of(alloc, dump.states.items())?;
        let silent = silent_of(alloc, dump)?;
        let stays = silent_stays(alloc, &silent, dump.actual.items())?;
        let wanted = wanted_of(alloc, dump)?;
        let pending = pending_of(alloc, dump.tasks.items())?;
        let told_desired = is_some_row(dump.desired.items());
        Ok(site_from(cells, silent, stays, wanted, pending, told_desired))
    }
}
