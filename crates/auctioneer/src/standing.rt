//! The cells as they stand before the first job.
ghost use Rattle.std.specs.Prelude.{◌≡◌, IfOk};
ghost use Rattle.auctioneer.specs.Asked.{IsSoundAnswer, IsSoundStand, AreAnswers, AreStands};
ghost use Rattle.auctioneer.specs.Stands.{stand_of, stands_of, jobs_of, has_ended};

use crate::stand::Stand;
use cell_records::{Answer, Container, ContainerState, JobName};
use diego_names::{List, OutOfMemory};
use std::alloc::Global;

// The jobs of the containers that have not ended.
fn jobs_of(alloc: Global, containers: &[Container]) -> Result<List<JobName>, OutOfMemory>
    ensures { IfOk result (λ jobs. jobs ≡ jobs_of containers.now) }
{
    let mut jobs = List::new(alloc);
    for container in containers {
        match container.state {
            ContainerState::Completed { .. } => {}
            ContainerState::Reserved | ContainerState::Running => jobs.push(container.job)?,
        }
    }
    Ok(jobs)
}

fn stand_of(alloc: Global, answer: &Answer) -> Result<Stand, OutOfMemory>
    requires { IsSoundAnswer answer.now }
    ensures value { IfOk result (λ stand. stand ≡ stand_of answer.now) }
    ensures sound { IfOk result IsSoundStand }
{
    // A number that was read is known to be in range.
    let _containers = answer.totals.containers;
    Ok(Stand {
        cell: answer.cell,
        zone: answer.zone,
        tag: answer.tag,
        totals: answer.totals,
        free: answer.free,
        jobs: jobs_of(alloc, answer.containers.items())?,
    })
}

// The cells in the order of their names.
pub(crate) fn stands_of(alloc: Global, answers: &[Answer]) -> Result<Vec<Stand>, OutOfMemory>
    requires { AreAnswers answers.now }
    ensures value { IfOk result (λ stands. stands.items ≡ stands_of answers.now) }
    ensures sound { IfOk result (λ stands. AreStands stands.items) }
{
    let mut stands = Vec::new(alloc);
    for answer in answers {
        stands.push(stand_of(alloc, answer)?)?;
    }
    stands.sort_unstable_by_key(|stand| stand.cell);
    Ok(stands)
}
