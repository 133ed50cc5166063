//! A job's container among those of a cell.
ghost use Rattle.std.specs.Prelude.{◌≡◌, ◌↔◌, true, find};
ghost use Rattle.std.specs.Ordering.{nat_cmp};
ghost use Rattle.container_store.specs.Changes.{is_uncompleted};
ghost use Rattle.container_store.specs.Store.{number_of};
ghost use Rattle.convergence.specs.Containers as told;
ghost use Rattle.row_tables.specs.Table.{find_row, IsRising};

use cell_records::{Container, ContainerState, JobName};
use diego_names::Instance;

/// Whether it has not ended.
pub fn is_uncompleted(container: &Container) -> bool
    ensures { result ≡ is_uncompleted container.now.state }
{
    match container.state {
        ContainerState::Reserved | ContainerState::Running => true,
        ContainerState::Completed { .. } => false,
    }
}

/// Whether they are in order of number; if not, they are found by a scan.
pub fn rises(containers: &[Container]) -> bool
    ensures { result ≡ true ↔ IsRising nat_cmp number_of containers.now }
{
    containers.is_sorted_by(|a, b| a.instance.number < b.instance.number)
}

/// The first container of that instance and job.
pub fn container_of(
    containers: &[Container],
    in_order: bool,
    job: &JobName,
    instance: &Instance,
) -> Option<Container>
    requires { in_order ≡ true → IsRising nat_cmp number_of containers.now }
    ensures { result ≡ find (told.is_container_of job.now instance.now) containers.now }
{
    if in_order {
        search(containers, job, instance)
    } else {
        scan(containers, job, instance)
    }
}

fn is_container_of(job: &JobName, instance: &Instance, container: &Container) -> bool
    ensures { result ≡ told.is_container_of job.now instance.now container.now }
{
    *instance == container.instance && *job == container.job
}

fn scan(containers: &[Container], job: &JobName, instance: &Instance) -> Option<Container>
    ensures { result ≡ find (told.is_container_of job.now instance.now) containers.now }
{
    for container in containers {
        if is_container_of(job, instance, container) {
            return Some(*container);
        }
    }
    None
}

fn numbered(containers: &[Container], number: u32) -> Option<Container>
    requires { IsRising nat_cmp number_of containers.now }
    ensures { result ≡ find_row nat_cmp number_of number containers.now }
{
    match containers.binary_search_by_key(&number, |c| c.instance.number) {
        Ok(at) => Some(containers[at]),
        Err(_) => None,
    }
}

fn search(containers: &[Container], job: &JobName, instance: &Instance) -> Option<Container>
    requires { IsRising nat_cmp number_of containers.now }
    ensures { result ≡ find (told.is_container_of job.now instance.now) containers.now }
{
    match numbered(containers, instance.number) {
        Some(container) if is_container_of(job, instance, &container) => Some(container),
        Some(_) => None,
        None => None,
    }
}
