//! What cells' answers tell of the containers that rows name.
ghost use Rattle.std.specs.Prelude.{◌≡◌, ◌+◌, ◌<◌, length, IfOk, OnOk};
ghost use Rattle.convergence.specs.Index.{IsIndexOf};
ghost use Rattle.convergence.specs.Plans as planned;

use crate::holding::{container_of, rises};
use cell_records::{Answer, Container, JobName};
use diego_names::{Instance, Name, OutOfMemory};
use std::alloc::Global;
use std::collections::HashMap;

/// Where a cell's answer stands, and whether its containers are in order of number, as they are in
/// what a cell's rep says.
#[derive(Clone, Copy, Debug)]
pub struct Heard {
    pub at: usize,
    pub in_order: bool,
}

/// The first answer of each cell and epoch.
pub type Index = HashMap<(Name, u64), Heard>;

/// Finds the answers again, in the time of one pass and the memory of a few words for each.
pub fn index_of(alloc: Global, answers: &[Answer]) -> Result<Index, OutOfMemory>
    ensures { IfOk result (IsIndexOf answers.now (length answers.now)) }
{
    let mut index = HashMap::new(alloc);
    for at in 0..answers.len() {
        note(&mut index, answers, at)?;
    }
    Ok(index)
}

/// Notes the answer at a place, unless one of its cell and epoch stands before it.
fn note(index: &mut Index, answers: &[Answer], at: usize) -> Result<(), OutOfMemory>
    requires within { at < length answers.now }
    requires index { IsIndexOf answers.now at index.old }
    ensures { OnOk result (IsIndexOf answers.now (at + 1) index.new) }
{
    let answer = &answers[at];
    let cell = (answer.cell, answer.epoch);
    if index.contains_key(&cell) {
        return Ok(());
    }
    let in_order = rises(answer.containers.items());
    index.insert(cell, Heard { at, in_order })?;
    Ok(())
}

/// What the answers tell of a job's container, if its cell answered: the container, or that it is
/// gone.
pub fn told_of(
    index: &Index,
    answers: &[Answer],
    job: &JobName,
    site: &(Instance, Name),
) -> Option<Option<Container>>
    requires { IsIndexOf answers.now (length answers.now) index.now }
    ensures { result ≡ planned.told_of answers.now job.now site.now }
{
    let (instance, cell) = *site;
    match index.get(&(cell, instance.epoch)) {
        None => None,
        Some(heard) => {
            let containers = answers[heard.at].containers.items();
            Some(container_of(containers, heard.in_order, job, &instance))
        }
    }
}
