//! The open cells as they matter to some jobs: with the containers of their processes alone.
ghost use Rattle.std.specs.Prelude.{◌≡◌, ◌∷◌, [], ◌++◌, ℕ, List, cond, filter, filter_map, map, IfOk, OnOk};
ghost use Rattle.std.specs.HashSet.{contains};
ghost use Rattle.auctioneer.specs.Asked.{AreAnswers};
ghost use Rattle.auctioneer.specs.Stands.{same_name};
ghost use Rattle.what_if.specs.Kept.{is_kept, kept_cell, process_in, processes_of};
ghost use Rattle.what_if.specs.Sites.{IsSite};
ghost use Rattle.what_if.specs.Stays.{is_lost, is_open, open_cells};

use crate::cells::{is_open, set_of};
use crate::site::Site;
use cell_records::{Answer, Container, Job, JobName};
use diego_names::{List, Name, OutOfMemory};
use std::alloc::Global;
use std::collections::HashSet;

fn process_in(job: &JobName) -> Option<Name>
    ensures { result ≡ process_in job.now }
{
    match job {
        JobName::Lrp(key) => Some(key.process),
        JobName::Task(_) => None,
    }
}

fn processes_of(alloc: Global, jobs: &[Job]) -> Result<Vec<Name>, OutOfMemory>
    ensures { IfOk result (λ names. names.items ≡ processes_of jobs.now) }
{
    let names = jobs
        .iter()
        .filter_map(|job| process_in(&job.job))
        .collect(alloc)?;
    Ok(names)
}

// The processes of the jobs.
pub(crate) fn process_set(alloc: Global, jobs: &[Job]) -> Result<HashSet<Name>, OutOfMemory>
    ensures { IfOk result (λ set. (name : List ℕ)
        → contains same_name set name ≡ is_lost (processes_of jobs.now) name) }
{
    let names = processes_of(alloc, jobs)?;
    let set = set_of(alloc, &names)?;
    Ok(set)
}

fn is_kept(processes: &HashSet<Name>, job: &JobName) -> bool
    ensures { result ≡ is_kept processes.now job.now }
{
    match job {
        JobName::Lrp(key) => processes.contains(&key.process),
        JobName::Task(_) => false,
    }
}

fn kept_containers(
    alloc: Global,
    processes: &HashSet<Name>,
    containers: &[Container],
) -> Result<Vec<Container>, OutOfMemory>
    ensures { IfOk result (λ list. list.items
        ≡ filter (λ k. is_kept processes.now k.job) containers.now) }
{
    let list = containers
        .iter()
        .filter(|container| is_kept(processes, &container.job))
        .copied()
        .collect(alloc)?;
    Ok(list)
}

fn kept_cell(
    alloc: Global,
    processes: &HashSet<Name>,
    answer: &Answer,
) -> Result<Answer, OutOfMemory>
    ensures { IfOk result (λ cell. cell ≡ kept_cell processes.now answer.now) }
{
    let containers = kept_containers(alloc, processes, answer.containers.items())?;
    Ok(Answer {
        cell: answer.cell,
        zone: answer.zone,
        tag: answer.tag,
        epoch: answer.epoch,
        evacuating: answer.evacuating,
        totals: answer.totals,
        free: answer.free,
        last: answer.last,
        containers: List::from(containers),
    })
}

// Adds the cell if it is open.
fn add_if_open(
    alloc: Global,
    cells: &mut Vec<Answer>,
    lost: &[Name],
    processes: &HashSet<Name>,
    answer: &Answer,
) -> Result<(), OutOfMemory>
    ensures { OnOk result (cells.new.items ≡ cells.old.items
        ++ cond (is_open lost.now answer.now) (kept_cell processes.now answer.now ∷ []) []) }
{
    if is_open(lost, answer) {
        cells.push(kept_cell(alloc, processes, answer)?)?;
    }
    Ok(())
}

// The open cells with the containers of these processes alone. It costs a look at each container.
pub(crate) fn kept_cells(
    alloc: Global,
    site: &Site,
    lost: &[Name],
    processes: &HashSet<Name>,
) -> Result<Vec<Answer>, OutOfMemory>
    requires { IsSite site.now }
    ensures value { IfOk result (λ cells. cells.items
        ≡ map (kept_cell processes.now) (open_cells site.now lost.now)) }
    ensures sound { IfOk result (λ cells. AreAnswers cells.items) }
{
    let mut cells = Vec::new(alloc);
    for answer in site.cells.items() {
        add_if_open(alloc, &mut cells, lost, processes, answer)?;
    }
    Ok(cells)
}
