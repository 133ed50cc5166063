//! What a loss does.
ghost use Rattle.std.specs.Prelude.{◌≡◌, filter_map, IfOk};
ghost use Rattle.site_answers.specs.Losses.{lost_of, uneven_then};
ghost use Rattle.site_answers.specs.Parts.{lost_from, move_by, HasLossParts};
ghost use Rattle.what_if.specs.Plans.{planned};
ghost use Rattle.what_if.specs.Scenes.{IsScene};
ghost use Rattle.what_if.specs.Sites.{IsSite};

use crate::cell_counts::tasks_lost;
use crate::dark::{dark_of, of_many};
use crate::stands::stays_after;
use crate::tags::tag_rooms;
use crate::zones::zones_then;
use auctioneer::Placement;
use cell_records::Job;
use diego_names::{List, Name, OutOfMemory};
use forecast_records::{Lost, Move, TagRoom, Uneven, ZoneThen};
use site_spread::uneven_in;
use std::alloc::Global;
use what_if::{Holders, Plan, Scene, Site, held_before, held_jobs, holders_of, plan_in};

// Where a job goes, if it is placed.
fn move_of(before: &Holders, placement: &Placement) -> Option<Move>
    ensures { result ≡ move_by before.now placement.now }
{
    match placement {
        Placement::On { job, cell } => Some(Move {
            job: *job,
            from: held_before(before, job),
            to: *cell,
        }),
        Placement::NoRoom { .. } => None,
    }
}

fn moves_of(
    alloc: Global,
    before: &Holders,
    placements: &[Placement],
) -> Result<Vec<Move>, OutOfMemory>
    ensures { IfOk result (λ moves. moves.items ≡ filter_map (move_by before.now) placements.now) }
{
    let moves = placements
        .iter()
        .filter_map(|placement| move_of(before, placement))
        .collect(alloc)?;
    Ok(moves)
}

// The processes that are uneven once all that waits is placed.
fn uneven_then(alloc: Global, scene: &Scene, plan: &Plan) -> Result<Vec<Uneven>, OutOfMemory>
    requires { plan.now ≡ planned scene.now.site.now scene.now.lost.now }
    ensures { IfOk result (λ uneven. uneven.items
        ≡ uneven_then scene.now.site.now scene.now.lost.now) }
{
    let stands = plan.stands.stands();
    let stays = stays_after(alloc, scene.site, scene.lost, stands)?;
    let uneven = uneven_in(alloc, scene.site, scene.lost, &stays)?;
    Ok(uneven)
}

// What is told of a loss beside its plan.
#[derive(Drop)]
pub(crate) struct LossParts {
    // The displaced jobs without room.
    pub(crate) counting: Vec<Job>,
    pub(crate) tasks: u64,
    pub(crate) dark: Vec<Name>,
    pub(crate) dark_of_many: Vec<Name>,
    pub(crate) uneven: Vec<Uneven>,
    pub(crate) tags: List<TagRoom>,
    pub(crate) zones: List<ZoneThen>,
    pub(crate) moves: Vec<Move>,
}

fn parts_of(alloc: Global, scene: &Scene, plan: &Plan) -> Result<LossParts, OutOfMemory>
    requires site { IsSite scene.now.site.now }
    requires scene { IsScene scene.now }
    requires plan { plan.now ≡ planned scene.now.site.now scene.now.lost.now }
    ensures { IfOk result (HasLossParts scene.now.site.now scene.now.lost.now) }
{
    let left = plan.left.items();
    let counting = held_jobs(alloc, left, scene.before)?;
    let tags = tag_rooms(alloc, scene, plan, &counting)?;
    let stands = plan.stands.stands();
    let zones = zones_then(alloc, scene.site, stands)?;
    let placements = plan.placements.items();
    let moves = moves_of(alloc, scene.before, placements)?;
    let dark = dark_of(alloc, scene)?;
    let dark_of_many = of_many(alloc, scene.site, &dark)?;
    let uneven = uneven_then(alloc, scene, plan)?;
    let tasks = tasks_lost(scene.site, scene.lost);
    Ok(LossParts {
        counting,
        tasks,
        dark,
        dark_of_many,
        uneven,
        tags,
        zones,
        moves,
    })
}

// What was told of the loss of so many cells.
fn lost_from(cells: usize, plan: Plan, parts: LossParts) -> Lost
    ensures { result ≡ lost_from cells plan parts }
{
    let jobs = plan.jobs.len() as u64;
    let left = plan.left.len() as u64;
    let unplaced = parts.counting.len() as u64;
    Lost {
        cells: cells as u64,
        displaced: plan.displaced,
        unplaced,
        waiting: jobs.saturating_sub(plan.displaced),
        waiting_unplaced: left.saturating_sub(unplaced),
        tasks: parts.tasks,
        dark: parts.dark.len() as u64,
        dark_of_many: List::from(parts.dark_of_many),
        uneven: parts.uneven.len() as u64,
        tags: parts.tags,
        without_room: plan.without_room,
        zones: parts.zones,
        moves: List::from(parts.moves),
        verdict: plan.verdict,
    }
}

/// What a loss does, where it is known already which cells hold what.
pub fn lose_in(alloc: Global, scene: &Scene) -> Result<Lost, OutOfMemory>
    requires site { IsSite scene.now.site.now }
    requires scene { IsScene scene.now }
    ensures { IfOk result (λ done. done ≡ lost_of scene.now.site.now scene.now.lost.now) }
{
    let plan = plan_in(alloc, scene)?;
    let parts = parts_of(alloc, scene, &plan)?;
    let cells = scene.lost.len();
    let lost = lost_from(cells, plan, parts);
    Ok(lost)
}

/// What the loss of these cells does.
///
/// It costs the plan of the loss, a few look-ups for each instance that stands or is wanted, and for each zone
/// and tag a look at each cell.
pub fn lose(alloc: Global, site: &Site, lost: &[Name]) -> Result<Lost, OutOfMemory>
    requires { IsSite site.now }
    ensures { IfOk result (λ done. done ≡ lost_of site.now lost.now) }
{
    let before = holders_of(alloc, site, &[])?;
    let after = holders_of(alloc, site, lost)?;
    let scene = Scene {
        site,
        lost,
        before: &before,
        after: &after,
    };
    lose_in(alloc, &scene)
}
