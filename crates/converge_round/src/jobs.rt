//! The work that waits for a cell.
ghost use Rattle.std.specs.Prelude.{◌≡◌, ◌++◌, IfOk, OnOk};
ghost use Rattle.std.specs.List.{filter_map};
ghost use Rattle.bbs_model.specs.Valid.{IsValid};
ghost use Rattle.converge_round.specs.Jobs as told;

use crate::adding::add;
use bbs_model::Rows;
use cell_records::{Job, JobName};
use convergence::find_sorted;
use diego_names::{Key, List, OutOfMemory};
use lrp_records::{Actual, LrpState, Presence};
use std::alloc::Global;
use task_records::{Task, TaskState};

/// A wanted instance, with the amounts of its process.
fn instance_job(rows: &Rows, key: &Key) -> Option<Job>
    requires { IsValid rows.now }
    ensures { result ≡ told.instance_job rows.now key.now }
{
    match find_sorted(rows.desired.items(), &key.process) {
        Some(desired) if key.index < desired.instances => Some(Job {
            job: JobName::Lrp(*key),
            memory: desired.memory,
            disk: desired.disk,
            tag: desired.tag,
        }),
        Some(_) => None,
        None => None,
    }
}

/// The job of an actual row, if it is a wanted ORDINARY one that waits.
fn row_job(rows: &Rows, row: &Actual) -> Option<Job>
    requires { IsValid rows.now }
    ensures { result ≡ told.row_job rows.now row.now }
{
    match row.presence {
        Presence::Evacuating | Presence::Suspect => None,
        Presence::Ordinary => match row.state {
            LrpState::Unclaimed => instance_job(rows, &row.key),
            LrpState::Claimed { .. } | LrpState::Running { .. } | LrpState::Crashed => None,
        },
    }
}

/// A task, with its amounts.
fn job_of_task(task: &Task) -> Job
    ensures { result ≡ told.job_of_task task.now }
{
    Job {
        job: JobName::Task(task.name),
        memory: task.memory,
        disk: task.disk,
        tag: task.tag,
    }
}

/// The job of a task, if it waits.
fn task_job(task: &Task) -> Option<Job>
    ensures { result ≡ told.task_job task.now }
{
    match task.state {
        TaskState::Pending => Some(job_of_task(task)),
        TaskState::Running { .. } | TaskState::Completed { .. } | TaskState::Resolving { .. } => {
            None
        }
    }
}

/// The job of that name.
pub fn named_job(rows: &Rows, name: &JobName) -> Option<Job>
    requires { IsValid rows.now }
    ensures { result ≡ told.named_job rows.now name.now }
{
    match *name {
        JobName::Lrp(key) => instance_job(rows, &key),
        JobName::Task(name) => match find_sorted(rows.tasks.items(), &name) {
            None => None,
            Some(task) => Some(job_of_task(&task)),
        },
    }
}

/// The instances and tasks that wait, in the order of their rows.
pub fn jobs_of(alloc: Global, rows: &Rows) -> Result<List<Job>, OutOfMemory>
    requires { IsValid rows.now }
    ensures { IfOk result (λ jobs. jobs ≡ told.jobs rows.now) }
{
    let mut jobs = List::new(alloc);
    add_instances(&mut jobs, rows, rows.actual.items())?;
    add_tasks(&mut jobs, rows.tasks.items())?;
    Ok(jobs)
}

fn add_instances(jobs: &mut List<Job>, rows: &Rows, actual: &[Actual]) -> Result<(), OutOfMemory>
    requires { IsValid rows.now }
    ensures { OnOk result (jobs.new ≡ jobs.old
        ++ filter_map (told.row_job rows.entry.now) actual.entry.now) }
{
    for row in actual {
        add(jobs, row_job(rows, row))?;
    }
    Ok(())
}

fn add_tasks(jobs: &mut List<Job>, tasks: &[Task]) -> Result<(), OutOfMemory>
    ensures { OnOk result (jobs.new ≡ jobs.old
        ++ filter_map told.task_job tasks.entry.now) }
{
    for task in tasks {
        add(jobs, task_job(task))?;
    }
    Ok(())
}
