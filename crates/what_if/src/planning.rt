//! The plan of a loss.
ghost use Rattle.std.specs.Prelude.{◌≡◌, ℕ, ◌≤◌, ◌^◌, List, length, map, filter, is_some, IfOk};
ghost use Rattle.auctioneer.specs.Asked.{AreAnswers, AreJobs};
ghost use Rattle.what_if.specs.Holders.{found_before, waits_by, IsHolders};
ghost use Rattle.what_if.specs.Scenes.{IsScene};
ghost use Rattle.what_if.specs.Placed.{planned_on};
ghost use Rattle.what_if.specs.Plans.{planned};
ghost use Rattle.what_if.specs.Sites.{IsSite};
ghost use Rattle.what_if.specs.Stays.{stays};

use crate::cells::open_cells;
use crate::placing::{Outcome, Setting, place_all, without_jobs};
use crate::plan::Plan;
use crate::site::Site;
use crate::standing::{Holders, stays};
use crate::verdicts::verdict_of;
use crate::waiting::{held_before, waits};
use auctioneer::{Auction, Stand, in_order};
use cell_records::{Answer, Job};
use diego_names::{List, Name, OutOfMemory};
use forecast_records::Verdict;
use std::alloc::Global;

/// Which cell holds which instance with these cells lost.
pub fn holders_of(alloc: Global, site: &Site, lost: &[Name]) -> Result<Holders, OutOfMemory>
    ensures { IfOk result (IsHolders (stays site.now lost.now)) }
{
    let list = stays(alloc, site, lost)?;
    Holders::of(alloc, &list)
}

/// A loss, with the cells that hold instances before it and with it.
#[derive(Clone, Copy)]
pub struct Scene<'a> {
    pub site: &'a Site,
    pub lost: &'a [Name],
    pub before: &'a Holders,
    pub after: &'a Holders,
}

/// Those of the jobs that a cell held while nothing was lost, by the holders of that time.
pub fn held_jobs(alloc: Global, jobs: &[Job], before: &Holders) -> Result<Vec<Job>, OutOfMemory>
    ensures { IfOk result (λ held. held.items
        ≡ filter (λ j. is_some (found_before before.now j.job)) jobs.now) }
{
    let held = jobs
        .iter()
        .filter(|job| held_before(before, &job.job).is_some())
        .copied()
        .collect(alloc)?;
    Ok(held)
}

// What waits where instances are held so.
fn waiting_of(alloc: Global, site: &Site, holders: &Holders) -> Result<Vec<Job>, OutOfMemory>
    requires { IsSite site.now }
    ensures value { IfOk result (λ jobs. jobs.items ≡ waits_by site.now holders.now) }
    ensures apart { IfOk result (λ jobs. AreJobs jobs.items) }
    ensures few { IfOk result (λ jobs. length jobs.items ≤ 2 ^ 32) }
{
    let jobs = waits(alloc, site, holders)?;
    Ok(jobs)
}

// The plan that came of it.
fn plan_from(
    jobs: Vec<Job>,
    before: Vec<Stand>,
    outcome: Outcome,
    stands: Auction,
    displaced: &[Job],
    verdict: Verdict,
) -> Plan
    ensures { result ≡ record {
      jobs = jobs.items;
      before = before.items;
      placements = outcome.placements;
      left = outcome.left;
      without_room = outcome.without_room;
      stands = stands;
      displaced = length displaced.now;
      verdict = verdict;
    } }
{
    Plan {
        jobs: List::from(jobs),
        before: List::from(before),
        placements: outcome.placements,
        left: outcome.left,
        without_room: outcome.without_room,
        stands,
        displaced: displaced.len() as u64,
        verdict,
    }
}

// The plan of what waits on these cells, where the holders tell which of the jobs a cell held before the loss.
pub(crate) fn plan_on(
    alloc: Global,
    before: &Holders,
    cells: &[Answer],
    waiting: &[Job],
) -> Result<Plan, OutOfMemory>
    requires cells { AreAnswers cells.now }
    requires apart { AreJobs waiting.now }
    requires few { length waiting.now ≤ 2 ^ 32 }
    ensures { IfOk result (λ plan. plan ≡ planned_on before.now cells.now waiting.now) }
{
    let displaced = held_jobs(alloc, waiting, before)?;
    let jobs = in_order(alloc, waiting)?;
    let mut auction = Auction::new(alloc, cells)?;
    let bare = without_jobs(alloc, auction.stands())?;
    let setting = Setting {
        before: &bare,
        jobs: &jobs,
        holders: before,
    };
    let outcome = place_all(alloc, &mut auction, &setting)?;
    let counting = held_jobs(alloc, outcome.left.items(), before)?;
    let verdict = verdict_of(&bare, &jobs, &counting);
    Ok(plan_from(jobs, bare, outcome, auction, &displaced, verdict))
}

/// The plan of a loss, where it is known already which cells hold what.
pub fn plan_in(alloc: Global, scene: &Scene) -> Result<Plan, OutOfMemory>
    requires site { IsSite scene.now.site.now }
    requires scene { IsScene scene.now }
    ensures { IfOk result (λ plan. plan ≡ planned scene.now.site.now scene.now.lost.now) }
{
    let waiting = waiting_of(alloc, scene.site, scene.after)?;
    let cells = open_cells(alloc, scene.site, scene.lost)?;
    let plan = plan_on(alloc, scene.before, &cells, &waiting)?;
    Ok(plan)
}

/// Where all that waits goes once these cells are lost.
///
/// It costs an auction of what waits, a look-up for each instance that stands or is wanted, and for
/// each job without room a look at each job and at each open cell.
pub fn plan_of(alloc: Global, site: &Site, lost: &[Name]) -> Result<Plan, OutOfMemory>
    requires { IsSite site.now }
    ensures { IfOk result (λ plan. plan ≡ planned site.now lost.now) }
{
    let before = holders_of(alloc, site, &[])?;
    let after = holders_of(alloc, site, lost)?;
    let scene = Scene {
        site,
        lost,
        before: &before,
        after: &after,
    };
    plan_in(alloc, &scene)
}
