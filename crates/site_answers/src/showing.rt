//! What stands and waits now.
ghost use Rattle.std.specs.Prelude.{◌≡◌, [], count_by, IfOk};
ghost use Rattle.site_answers.specs.Parts.{shown_from, HasShownParts};
ghost use Rattle.site_answers.specs.Shows.{shown_of};
ghost use Rattle.site_spread.specs.Spread.{in_one_zone, on_one_cell};
ghost use Rattle.what_if.specs.Plans.{planned};
ghost use Rattle.what_if.specs.Sites.{IsSite};
ghost use Rattle.what_if.specs.Stays.{stays};

use crate::cell_counts::{instances_there, tasks_there};
use crate::tags::tag_rooms;
use crate::zones::zones_now;
use cell_records::Answer;
use diego_names::{List, OutOfMemory};
use forecast_records::{Shown, TagRoom, Uneven, Verdict, ZoneNow};
use site_spread::{Together, by_spread, processes, together_in, uneven_now};
use std::alloc::Global;
use what_if::{Plan, Scene, Site, Wanted, holders_of, plan_in, stays, verdict_of};

fn cells_being_emptied(cells: &[Answer]) -> u64
    ensures { result ≡ count_by (λ c. c.evacuating) cells.now }
{
    cells.iter().filter(|cell| cell.evacuating).count() as u64
}

fn crashed_among(wanted: &[Wanted]) -> u64
    ensures { result ≡ count_by (λ w. w.crashed) wanted.now }
{
    wanted.iter().filter(|wanted| wanted.crashed).count() as u64
}

// The processes that are all in one place, as instances stand now.
fn together_now(alloc: Global, site: &Site) -> Result<Together, OutOfMemory>
    ensures on_cell { IfOk result (λ own. own.on_cell ≡ on_one_cell site.now (stays site.now [])) }
    ensures in_zone { IfOk result (λ own. own.in_zone ≡ in_one_zone site.now (stays site.now [])) }
{
    let list = stays(alloc, site, &[])?;
    together_in(alloc, site, &list)
}

// What is shown beside the plan.
#[derive(Drop)]
pub(crate) struct ShownParts {
    pub(crate) instances: u64,
    pub(crate) processes: Vec<Wanted>,
    pub(crate) tasks: u64,
    pub(crate) tags: List<TagRoom>,
    pub(crate) zones: List<ZoneNow>,
    pub(crate) uneven: Vec<Uneven>,
    pub(crate) together: Together,
    pub(crate) verdict: Verdict,
}

fn parts_of(alloc: Global, scene: &Scene, plan: &Plan) -> Result<ShownParts, OutOfMemory>
    requires site { IsSite scene.now.site.now }
    requires none { scene.now.lost.now ≡ [] }
    requires plan { plan.now ≡ planned scene.now.site.now scene.now.lost.now }
    ensures { IfOk result (HasShownParts scene.now.site.now) }
{
    let site = scene.site;
    let left = plan.left.items();
    let tags = tag_rooms(alloc, scene, plan, left)?;
    let zones = zones_now(alloc, site)?;
    let list = uneven_now(alloc, site)?;
    let uneven = by_spread(list);
    let together = together_now(alloc, site)?;
    let processes = processes(alloc, site)?;
    let before = plan.before.items();
    let jobs = plan.jobs.items();
    let verdict = verdict_of(before, jobs, left);
    let instances = instances_there(site);
    let tasks = tasks_there(site);
    Ok(ShownParts {
        instances,
        processes,
        tasks,
        tags,
        zones,
        uneven,
        together,
        verdict,
    })
}

// What was shown, with the plan where no cell is lost.
fn shown_from(site: &Site, plan: Plan, parts: ShownParts) -> Shown
    ensures { result ≡ shown_from site.now plan parts }
{
    Shown {
        cells: site.cells.len() as u64,
        evacuating: cells_being_emptied(site.cells.items()),
        silent: site.silent.len() as u64,
        instances: parts.instances,
        processes: parts.processes.len() as u64,
        tasks: parts.tasks,
        crashed: crashed_among(site.wanted.items()),
        waiting: plan.jobs.len() as u64,
        tags: parts.tags,
        unplaced: plan.without_room,
        zones: parts.zones,
        uneven: List::from(parts.uneven),
        one_cell: parts.together.on_cell,
        one_zone: parts.together.in_zone,
        verdict: parts.verdict,
    }
}

/// What stands and waits now: what waits is planned with no cell lost, and all that is left over counts.
///
/// It costs that plan, a few look-ups for each instance that stands or is wanted, and for each zone and tag a
/// look at each cell.
pub fn show(alloc: Global, site: &Site) -> Result<Shown, OutOfMemory>
    requires { IsSite site.now }
    ensures { IfOk result (λ shown. shown ≡ shown_of site.now) }
{
    let holders = holders_of(alloc, site, &[])?;
    let scene = Scene {
        site,
        lost: &[],
        before: &holders,
        after: &holders,
    };
    let plan = plan_in(alloc, &scene)?;
    let parts = parts_of(alloc, &scene, &plan)?;
    let shown = shown_from(site, plan, parts);
    Ok(shown)
}
