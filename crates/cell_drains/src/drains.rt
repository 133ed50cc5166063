//! What happens where cells are emptied in batches.
ghost use Rattle.std.specs.Prelude.{◌≡◌, ◌≤◌, ◌^◌, length, filter, IfOk, OnOk};
ghost use Rattle.cell_drains.specs.Courses.{IsReady, TakesAll, TakesStep};
ghost use Rattle.cell_drains.specs.Drains.{step_from};
ghost use Rattle.room_facts.specs.Lacks.{has_tag};
ghost use Rattle.room_facts.specs.Rooms.{free_in_all};
ghost use Rattle.cell_drains.specs.Steps.{after_step};
ghost use Rattle.site_answers.specs.Sums.{as_sums};
ghost use Rattle.what_if.specs.Plans.{planned};
ghost use Rattle.what_if.specs.Sites.{IsSite};

use crate::batches::Batch;
use crate::counts::{count_displaced, count_waiting};
use crate::moves::placed_in;
use crate::steps::after_step;
use auctioneer::Stand;
use cell_records::JobName;
use diego_names::{List, Name, OutOfMemory};
use forecast_records::Step;
use room_facts::{Sums, free_in_all};
use std::alloc::Global;
use what_if::{Plan, Site, plan_of};

// What the cells with that tag have free in all.
fn free_left(tag: &Option<Name>, stands: &[Stand]) -> Sums
    requires { length stands.now ≤ 2 ^ 32 }
    ensures { result ≡ as_sums (free_in_all (filter (has_tag tag.now) stands.now)) }
{
    free_in_all(tag, stands)
}

// The step that this plan is.
fn step_from(alloc: Global, number: u64, batch: &Batch, plan: &Plan) -> Result<Step, OutOfMemory>
    requires { length plan.now.stands ≤ 2 ^ 32 }
    ensures { IfOk result (λ step. step ≡ step_from number batch.now plan.now) }
{
    let without = plan.without_room.items();
    let cells = Vec::from_slice(alloc, batch.cells.items())?;
    let without_room = Vec::from_slice(alloc, without)?;
    Ok(Step {
        step: number,
        zone: batch.zone,
        tag: batch.tag,
        cells: List::from(cells),
        displaced: plan.displaced,
        unplaced: count_displaced(without),
        waiting_unplaced: count_waiting(without),
        free_left: free_left(&batch.tag, plan.stands.stands()),
        without_room: List::from(without_room),
        verdict: plan.verdict,
    })
}

// A drain so far: the site that its last step leaves, the steps, and the jobs that they placed.
#[derive(Drop)]
pub(crate) struct Course {
    pub(crate) site: Site,
    pub(crate) steps: List<Step>,
    pub(crate) moved: Vec<JobName>,
}

// The plan with the batch lost.
fn plan_batch(alloc: Global, site: &Site, batch: &Batch) -> Result<Plan, OutOfMemory>
    requires { IsSite site.now }
    ensures value { IfOk result (λ plan. plan ≡ planned site.now batch.now.cells) }
    ensures few { IfOk result (λ plan. length plan.stands ≤ 2 ^ 32) }
{
    let plan = plan_of(alloc, site, batch.cells.items())?;
    Ok(plan)
}

// The site that the step leaves whose plan this is.
fn site_left(alloc: Global, site: &Site, batch: &Batch, plan: &Plan) -> Result<Site, OutOfMemory>
    requires ready { IsReady site.now }
    requires plan { plan.now ≡ planned site.now batch.now.cells }
    ensures value { IfOk result (λ next. next ≡ after_step site.now batch.now.cells) }
    ensures ready { IfOk result IsReady }
{
    let next = after_step(alloc, site, batch.cells.items(), plan)?;
    Ok(next)
}

// Empties one batch more, as the step of that number.
fn take_step(
    alloc: Global,
    course: &mut Course,
    number: u64,
    batch: &Batch,
) -> Result<(), OutOfMemory>
    requires { IsReady course.old.site }
    ensures { OnOk result (TakesStep course.old number batch.now course.new) }
{
    let plan = plan_batch(alloc, &course.site, batch)?;
    let step = step_from(alloc, number, batch, &plan)?;
    let mut placed = placed_in(alloc, plan.placements.items())?;
    let next = site_left(alloc, &course.site, batch, &plan)?;
    course.steps.push(step)?;
    course.moved.append(&mut placed)?;
    course.site = next;
    Ok(())
}

// Empties the batches, one after another.
pub(crate) fn take_all(alloc: Global, site: Site, batches: &[Batch]) -> Result<Course, OutOfMemory>
    requires { IsReady site }
    ensures { IfOk result (λ course. TakesAll site batches.now course) }
{
    let mut course = Course {
        site,
        steps: List::new(alloc),
        moved: Vec::new(alloc),
    };
    for at in 0..batches.len() {
        take_step(alloc, &mut course, at as u64 + 1, &batches[at])?;
    }
    Ok(course)
}
