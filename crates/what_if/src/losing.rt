//! The plan of one loss after another.
ghost use Rattle.std.specs.Prelude.{◌≡◌, ◌≤◌, ◌^◌, ◌++◌, length, map, filter, not, IfOk};
ghost use Rattle.std.specs.List.Sorted.{IsPermutation};
ghost use Rattle.auctioneer.specs.Asked.{AreJobs};
ghost use Rattle.what_if.specs.Baselines.{IsBaseline};
ghost use Rattle.what_if.specs.Placed.{bare_plan};
ghost use Rattle.what_if.specs.Plans.{planned};
ghost use Rattle.what_if.specs.Taken.{AreTaken};
ghost use Rattle.what_if.specs.Waiting.{instance_job, waits};

use crate::baseline::Baseline;
use crate::kept_cells::{kept_cells, process_set};
use crate::plan::Plan;
use crate::planning::plan_on;
use crate::site::Wanted;
use crate::waiting::instance_job;
use cell_records::Job;
use diego_names::{Name, OutOfMemory};
use std::alloc::Global;

// The instances that have not crashed, as jobs.
fn jobs_of(alloc: Global, taken: &[Wanted]) -> Result<Vec<Job>, OutOfMemory>
    ensures { IfOk result (λ jobs. jobs.items
        ≡ map instance_job (filter (λ w. not w.crashed) taken.now)) }
{
    let jobs = taken
        .iter()
        .filter(|wanted| !wanted.crashed)
        .map(instance_job)
        .collect(alloc)?;
    Ok(jobs)
}

// What waits while nothing is lost, and then the instances that the loss takes.
fn waiting_then(alloc: Global, base: &Baseline, taken: &[Wanted]) -> Result<Vec<Job>, OutOfMemory>
    ensures { IfOk result (λ jobs. jobs.items ≡ base.now.waiting.items
        ++ map instance_job (filter (λ w. not w.crashed) taken.now)) }
{
    let mut jobs = Vec::from_slice(alloc, &base.waiting)?;
    let mut more = jobs_of(alloc, taken)?;
    jobs.append(&mut more)?;
    Ok(jobs)
}

// What waits with these cells lost, in some order.
fn waiting_with(
    alloc: Global,
    base: &Baseline,
    lost: &[Name],
    taken: &[Wanted],
) -> Result<Vec<Job>, OutOfMemory>
    requires base { IsBaseline base.now }
    requires taken { AreTaken base.now.site.now lost.now taken.now }
    ensures same { IfOk result (λ jobs.
        IsPermutation (waits base.now.site.now lost.now) jobs.items) }
    ensures apart { IfOk result (λ jobs. AreJobs jobs.items) }
    ensures few { IfOk result (λ jobs. length jobs.items ≤ 2 ^ 32) }
{
    let jobs = waiting_then(alloc, base, taken)?;
    Ok(jobs)
}

/// The plan of a loss that takes these instances, but for the jobs that the cells have behind it: those of
/// processes that nothing waits of are left out.
///
/// It costs an auction of what waits on cells with the containers of these processes, and a look at each container.
pub fn plan_with(
    alloc: Global,
    base: &Baseline,
    lost: &[Name],
    taken: &[Wanted],
) -> Result<Plan, OutOfMemory>
    requires base { IsBaseline base.now }
    requires taken { AreTaken base.now.site.now lost.now taken.now }
    ensures { IfOk result (λ plan. bare_plan plan
        ≡ bare_plan (planned base.now.site.now lost.now)) }
{
    let waiting = waiting_with(alloc, base, lost, taken)?;
    let processes = process_set(alloc, &waiting)?;
    let cells = kept_cells(alloc, base.site, lost, &processes)?;
    let plan = plan_on(alloc, &base.before, &cells, &waiting)?;
    Ok(plan)
}
