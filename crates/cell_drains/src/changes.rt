//! What a step of a drain changes.
ghost use Rattle.std.specs.Prelude.{◌≡◌, length, IfOk};
ghost use Rattle.std.specs.List.{filter_map};
ghost use Rattle.cell_drains.specs.Changes.{task_in, task_left, waits_by, IsChange};

use crate::groups::Groups;
use auctioneer::Placement;
use cell_records::JobName;
use diego_names::{Name, OutOfMemory};
use std::alloc::Global;
use std::collections::HashSet;
use what_if::{Plan, set_of};

// What a step changes, as it is looked up.
#[derive(Drop)]
pub(crate) struct Change {
    // The jobs that were placed on each cell.
    pub(crate) placed: Groups,
    // The cells of the batch.
    pub(crate) gone: HashSet<Name>,
    // The tasks that found no room.
    pub(crate) left: HashSet<Name>,
}

fn task_in(job: &JobName) -> Option<Name>
    ensures { result ≡ task_in job.now }
{
    match job {
        JobName::Task(name) => Some(*name),
        JobName::Lrp(_) => None,
    }
}

// The task that the placement leaves without room.
fn task_left(placement: &Placement) -> Option<Name>
    ensures { result ≡ task_left placement.now }
{
    match placement {
        Placement::NoRoom { job } => task_in(job),
        Placement::On { .. } => None,
    }
}

fn tasks_left(alloc: Global, placements: &[Placement]) -> Result<Vec<Name>, OutOfMemory>
    ensures { IfOk result (λ names. names.items ≡ filter_map task_left placements.now) }
{
    let names = placements.iter().filter_map(task_left).collect(alloc)?;
    Ok(names)
}

impl Change {
    // What the plan changes whose batch is lost.
    pub(crate) fn of(alloc: Global, batch: &[Name], plan: &Plan) -> Result<Change, OutOfMemory>
        requires { length plan.now.placements ≡ length plan.now.jobs }
        ensures { IfOk result (IsChange batch.now plan.now.jobs plan.now.placements) }
    {
        let placed = Groups::of(alloc, plan.jobs.items(), plan.placements.items())?;
        let gone = set_of(alloc, batch)?;
        let names = tasks_left(alloc, plan.placements.items())?;
        let left = set_of(alloc, &names)?;
        Ok(Change { placed, gone, left })
    }

    // Whether the job is a task that still waits.
    pub(crate) fn waits(&self, job: &JobName) -> bool
        ensures { result ≡ waits_by self.now job.now }
    {
        match job {
            JobName::Task(name) => self.left.contains(name),
            JobName::Lrp(_) => false,
        }
    }
}
