//! What waits of each tag, and the room that there is for it.
ghost use Rattle.std.specs.Prelude.{◌≡◌, ◌++◌, ◌∷◌, [], count_by, map, IfOk, OnOk};
ghost use Rattle.room_facts.specs.Lacks.{has_tag};
ghost use Rattle.room_facts.specs.Rooms.{of_tag};
ghost use Rattle.site_answers.specs.Tags.{tag_rooms, tags_of};
ghost use Rattle.what_if.specs.Plans.{planned};
ghost use Rattle.what_if.specs.Sites.{IsSite};
ghost use Rattle.site_answers.specs.Rooms.{room_of, AreFew};

use auctioneer::Stand;
use cell_records::{Answer, Job};
use diego_names::{List, Name, OutOfMemory};
use forecast_records::TagRoom;
use room_facts::{asked_in_all, free_in_all, has_tag};
use site_spread::keys_in_order;
use std::alloc::Global;
use what_if::{Plan, Scene, verdict_of};

fn tags_told(alloc: Global, cells: &[Answer]) -> Result<Vec<Option<Name>>, OutOfMemory>
    ensures { IfOk result (λ tags. tags.items ≡ map (λ c. c.tag) cells.now) }
{
    let tags = cells.iter().map(|cell| cell.tag).collect(alloc)?;
    Ok(tags)
}

fn tags_asked(alloc: Global, jobs: &[Job]) -> Result<Vec<Option<Name>>, OutOfMemory>
    ensures { IfOk result (λ tags. tags.items ≡ map (λ j. j.tag) jobs.now) }
{
    let tags = jobs.iter().map(|job| job.tag).collect(alloc)?;
    Ok(tags)
}

// The tag of each cell, and then of each job.
fn all_tags(alloc: Global, cells: &[Answer], jobs: &[Job]) -> Result<Vec<Option<Name>>, OutOfMemory>
    ensures { IfOk result (λ tags. tags.items
        ≡ map (λ c. c.tag) cells.now ++ map (λ j. j.tag) jobs.now) }
{
    let mut tags = tags_told(alloc, cells)?;
    let mut asked = tags_asked(alloc, jobs)?;
    tags.append(&mut asked)?;
    Ok(tags)
}

// The tags of the cells and of the jobs, each once, none first.
fn tags_of(alloc: Global, cells: &[Answer], jobs: &[Job]) -> Result<Vec<Option<Name>>, OutOfMemory>
    ensures { IfOk result (λ tags. tags.items ≡ tags_of cells.now jobs.now) }
{
    let tags = all_tags(alloc, cells, jobs)?;
    let once = keys_in_order(alloc, &tags)?;
    Ok(once)
}

// The jobs for a tag.
fn jobs_of_tag(alloc: Global, tag: &Option<Name>, jobs: &[Job]) -> Result<Vec<Job>, OutOfMemory>
    ensures { IfOk result (λ own. own.items ≡ of_tag tag.now jobs.now) }
{
    let own = jobs
        .iter()
        .filter(|job| *tag == job.tag)
        .copied()
        .collect(alloc)?;
    Ok(own)
}

// How many of the cells are for a tag.
fn cells_of_tag(tag: &Option<Name>, stands: &[Stand]) -> u64
    ensures { result ≡ count_by (has_tag tag.now) stands.now }
{
    stands.iter().filter(|stand| has_tag(tag, stand)).count() as u64
}

// What waits and what is left over of it, on cells as they stand before the first job.
#[derive(Clone, Copy)]
pub(crate) struct Waiting<'a> {
    pub(crate) before: &'a [Stand],
    pub(crate) jobs: &'a [Job],
    pub(crate) left: &'a [Job],
    // Those of the jobs left over that count for the verdict.
    pub(crate) counting: &'a [Job],
}

// Adds what is told of a tag.
fn add_tag_room(
    alloc: Global,
    list: &mut List<TagRoom>,
    waiting: &Waiting,
    tag: &Option<Name>,
) -> Result<(), OutOfMemory>
    requires { AreFew waiting.now }
    ensures { OnOk result (list.new ≡ list.old ++ room_of waiting.now tag.now ∷ []) }
{
    let counting = jobs_of_tag(alloc, tag, waiting.counting)?;
    let verdict = verdict_of(waiting.before, waiting.jobs, &counting);
    let cells_left = cells_of_tag(tag, waiting.before);
    let asked = asked_in_all(tag, waiting.jobs);
    let free = free_in_all(tag, waiting.before);
    let unplaced = asked_in_all(tag, waiting.left);
    let room = TagRoom {
        tag: *tag,
        cells_left,
        jobs: asked.containers,
        asked,
        free,
        unplaced: unplaced.containers,
        unplaced_memory: unplaced.memory,
        verdict,
    };
    list.push(room)?;
    Ok(())
}

// What is told of each tag of the cells and the jobs.
fn rooms_of(
    alloc: Global,
    cells: &[Answer],
    waiting: &Waiting,
) -> Result<List<TagRoom>, OutOfMemory>
    requires { AreFew waiting.now }
    ensures { IfOk result (λ rooms. rooms
        ≡ map (room_of waiting.now) (tags_of cells.now waiting.now.jobs.now)) }
{
    let tags = tags_of(alloc, cells, waiting.jobs)?;
    let mut rooms = List::new(alloc);
    for tag in &tags {
        add_tag_room(alloc, &mut rooms, waiting, tag)?;
    }
    Ok(rooms)
}

// What is told of each tag by the plan of a loss, where these of the jobs left over count for the verdict.
//
// It costs for each tag a look at each job and each cell, and as much again for each of its jobs that count.
pub(crate) fn tag_rooms(
    alloc: Global,
    scene: &Scene,
    plan: &Plan,
    counting: &[Job],
) -> Result<List<TagRoom>, OutOfMemory>
    requires site { IsSite scene.now.site.now }
    requires plan { plan.now ≡ planned scene.now.site.now scene.now.lost.now }
    ensures { IfOk result (λ rooms. rooms
        ≡ tag_rooms scene.now.site.now scene.now.lost.now counting.now) }
{
    let before = plan.before.items();
    let jobs = plan.jobs.items();
    let left = plan.left.items();
    let cells = scene.site.cells.items();
    let waiting = Waiting {
        before,
        jobs,
        left,
        counting,
    };
    let rooms = rooms_of(alloc, cells, &waiting)?;
    Ok(rooms)
}
