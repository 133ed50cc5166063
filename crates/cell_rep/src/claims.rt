//! What an act does to a cell's containers before it calls.
ghost use Rattle.std.specs.Prelude.{◌≡◌, MatchResult, IsOk, Ok, Err};
ghost use Rattle.container_store.specs.Changes.{running};
ghost use Rattle.std.specs.Result.{result_unwrap_or};
ghost use Rattle.cell_rep.specs.Claims.{first_of, claiming, store_ended, flag_of, IsClaimFault};

use cell_records::{Container, ContainerState, JobName};
use container_store::{ReserveFault, Store};

/// A job's container that has not ended, or one more.
pub fn claim_in(
    store: &mut Store,
    job: &JobName,
    memory: u32,
    disk: u32,
) -> Result<Container, ReserveFault>
    ensures { MatchResult result
        (λ container. claiming store.old job.now memory disk ≡ Ok (store.new, container))
        (λ fault. IsClaimFault (claiming store.old job.now memory disk) fault
        × (store.new ≡ store.old)) }
{
    if let Some(container) = store.uncompleted_of(job) {
        return Ok(container);
    }
    match store.reserve(*job, memory, disk) {
        Err(fault) => Err(fault),
        Ok(instance) => Ok(Container {
            instance,
            job: *job,
            memory,
            disk,
            state: ContainerState::Reserved,
        }),
    }
}

/// A container runs, if it does not run yet.
pub fn run_in(store: &mut Store, container: &Container)
    ensures { store.new ≡ result_unwrap_or (running store.old container.now.instance) store.old }
{
    let _ = store.run(&container.instance);
}

/// The first container of a job ends, and is told as it was before.
pub fn end_in(store: &mut Store, job: &JobName, failed: bool) -> Option<Container>
    ensures store { store.new
        ≡ store_ended store.old failed (first_of job.now store.old.containers) }
    ensures found { result ≡ first_of job.now store.old.containers }
{
    let container = store.first_of(job)?;
    let _ = store.complete(&container.instance, failed);
    Some(container)
}

/// How a container ended, if it had ended, and else that flag.
pub fn flag_of(container: &Container, failed: bool) -> bool
    ensures { result ≡ flag_of container.now.state failed }
{
    match container.state {
        ContainerState::Completed { failed: was } => was,
        _ => failed,
    }
}
