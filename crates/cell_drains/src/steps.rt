//! The site after a step of a drain.
ghost use Rattle.std.specs.Prelude.{◌≡◌, ◌++◌, filter, fold, map, IfOk};
ghost use Rattle.auctioneer.specs.Stands.{less};
ghost use Rattle.cell_drains.specs.Changes.{changed_by, waits_by};
ghost use Rattle.cell_drains.specs.Steps.{after_step, emptied, job_container, with_jobs, IsLevel};
ghost use Rattle.what_if.specs.Plans.{planned};
ghost use Rattle.what_if.specs.Sites.{IsSite};

use crate::changes::Change;
use crate::sites::site_with;
use cell_records::{Amounts, Answer, Container, ContainerState, Job};
use diego_names::{Instance, List, Name, OutOfMemory};
use std::alloc::Global;
use what_if::{Plan, Site};

// The cell as it comes back: empty, and not being emptied.
fn emptied(alloc: Global, answer: &Answer) -> Answer
    ensures { result ≡ emptied answer.now }
{
    Answer {
        cell: answer.cell,
        zone: answer.zone,
        tag: answer.tag,
        epoch: answer.epoch,
        evacuating: false,
        totals: answer.totals,
        free: answer.totals,
        last: answer.last,
        containers: List::new(alloc),
    }
}

// A job as a container that runs.
fn job_container(job: &Job) -> Container
    ensures { result ≡ job_container job.now }
{
    Container {
        instance: Instance {
            epoch: 0,
            number: 0,
        },
        job: job.job,
        memory: job.memory,
        disk: job.disk,
        state: ContainerState::Running,
    }
}

fn job_containers(alloc: Global, jobs: &[Job]) -> Result<Vec<Container>, OutOfMemory>
    ensures { IfOk result (λ list. list.items ≡ map job_container jobs.now) }
{
    let list = jobs.iter().map(job_container).collect(alloc)?;
    Ok(list)
}

// The containers of the cell, and then those of the jobs.
fn containers_with(
    alloc: Global,
    jobs: &[Job],
    answer: &Answer,
) -> Result<Vec<Container>, OutOfMemory>
    ensures { IfOk result (λ list. list.items
        ≡ answer.now.containers ++ map job_container jobs.now) }
{
    let mut list = Vec::from_slice(alloc, answer.containers.items())?;
    let mut more = job_containers(alloc, jobs)?;
    list.append(&mut more)?;
    Ok(list)
}

// What is left once the job is there.
fn less(free: Amounts, job: &Job) -> Amounts
    ensures { result ≡ less free job.now }
{
    Amounts {
        memory: free.memory.saturating_sub(job.memory),
        disk: free.disk.saturating_sub(job.disk),
        containers: free.containers.saturating_sub(1),
    }
}

// What is left once all the jobs are there.
fn less_all(free: Amounts, jobs: &[Job]) -> Amounts
    ensures { result ≡ fold less free jobs.now }
{
    let mut left = free;
    for job in jobs {
        left = less(left, job);
    }
    left
}

// The cell with the jobs on it.
fn with_jobs(alloc: Global, jobs: &[Job], answer: &Answer) -> Result<Answer, OutOfMemory>
    ensures { IfOk result (λ cell. cell ≡ with_jobs jobs.now answer.now) }
{
    let containers = containers_with(alloc, jobs, answer)?;
    Ok(Answer {
        cell: answer.cell,
        zone: answer.zone,
        tag: answer.tag,
        epoch: answer.epoch,
        evacuating: answer.evacuating,
        totals: answer.totals,
        free: less_all(answer.free, jobs),
        last: answer.last,
        containers: List::from(containers),
    })
}

// A cell after the step: emptied if it is of the batch, else with what was placed on it.
fn changed_by(alloc: Global, change: &Change, answer: &Answer) -> Result<Answer, OutOfMemory>
    ensures { IfOk result (λ cell. cell ≡ changed_by change.now answer.now) }
{
    if change.gone.contains(&answer.cell) {
        return Ok(emptied(alloc, answer));
    }
    let jobs = change.placed.on(alloc, &answer.cell)?;
    with_jobs(alloc, jobs.as_slice(), answer)
}

fn cells_after(
    alloc: Global,
    change: &Change,
    answers: &[Answer],
) -> Result<Vec<Answer>, OutOfMemory>
    ensures { IfOk result (λ cells. cells.items ≡ map (changed_by change.now) answers.now) }
{
    let mut cells = Vec::new(alloc);
    for answer in answers {
        cells.push(changed_by(alloc, change, answer)?)?;
    }
    Ok(cells)
}

// The tasks that still wait.
fn pending_after(alloc: Global, change: &Change, pending: &[Job]) -> Result<Vec<Job>, OutOfMemory>
    ensures { IfOk result (λ jobs. jobs.items
        ≡ filter (λ j. waits_by change.now j.job) pending.now) }
{
    let jobs = pending
        .iter()
        .filter(|job| change.waits(&job.job))
        .copied()
        .collect(alloc)?;
    Ok(jobs)
}

fn site_after(alloc: Global, site: &Site, change: &Change) -> Result<Site, OutOfMemory>
    ensures { IfOk result (λ next. next ≡ record site.now {
      cells = map (changed_by change.now) site.now.cells;
      pending = filter (λ j. waits_by change.now j.job) site.now.pending;
    }) }
{
    let cells = cells_after(alloc, change, site.cells.items())?;
    let pending = pending_after(alloc, change, site.pending.items())?;
    site_with(alloc, site, cells, pending)
}

/// The site after the step whose plan this is: the cells of the batch come back empty and not being
/// emptied, what was placed stays where it was placed, and the tasks that found no room still wait.
///
/// It costs a copy of the site, and a look-up for each job, each cell and each task.
pub fn after_step(
    alloc: Global,
    site: &Site,
    batch: &[Name],
    plan: &Plan,
) -> Result<Site, OutOfMemory>
    requires sound { IsSite site.now }
    requires level { IsLevel site.now }
    requires plan { plan.now ≡ planned site.now batch.now }
    ensures value { IfOk result (λ next. next ≡ after_step site.now batch.now) }
    ensures sound { IfOk result IsSite }
    ensures level { IfOk result IsLevel }
{
    let change = Change::of(alloc, batch, plan)?;
    let next = site_after(alloc, site, &change)?;
    Ok(next)
}
