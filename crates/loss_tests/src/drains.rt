//! A rolling update over two cells of one zone and one of another: what is told was worked out by hand.
ghost use Rattle.std.specs.Prelude.{◌≡◌};
ghost use Rattle.cell_drains.specs.Steps.{IsLevel};
ghost use Rattle.what_if.specs.Plans.{planned};
ghost use Rattle.what_if.specs.Sites.{IsSite};

use crate::dumps::{
    EMPTY, SILENT, SMALL, WEB_0, WEB_0_NOT_COUNTED, WEB_1, names_of, rank, site_of,
};
use cell_drains::{after_step, drain, levelled};
use cell_records::Answer;
use diego_names::{List, Name, OutOfMemory};
use forecast_records::{Drained, Step};
use std::alloc::Global;
use std::test::Fail;
use what_if::{Plan, Site, plan_of};

// What is told of the whole, and of its first steps.
#[derive(Clone, Copy, Debug, PartialEq, Eq)]
struct Seen {
    // Cells, bad steps, moves, the most of one job, empty cells, uneven before and behind, steps, zones,
    // the verdict.
    whole: [u64; 10],
    // Of each step: cells, displaced, unplaced, those without room that waited, the MB left in its tag.
    steps: [Option<[u64; 5]>; 3],
}

fn counts_of(step: &Step) -> [u64; 5] {
    [
        step.cells.len() as u64,
        step.displaced,
        step.unplaced,
        step.waiting_unplaced,
        step.free_left.memory,
    ]
}

fn step_at(steps: &[Step], at: usize) -> Option<[u64; 5]> {
    if at < steps.len() {
        Some(counts_of(&steps[at]))
    } else {
        None
    }
}

fn seen_of(drained: &Drained) -> Seen {
    let steps = drained.steps.items();
    Seen {
        whole: [
            drained.cells,
            drained.bad_steps,
            drained.moves,
            drained.most_moves,
            drained.empty,
            drained.uneven_before,
            drained.uneven,
            steps.len() as u64,
            drained.zones.len() as u64,
            rank(drained.verdict),
        ],
        steps: [step_at(steps, 0), step_at(steps, 1), step_at(steps, 2)],
    }
}

// All cells if none is given.
fn given_of(alloc: Global, given: &[Name]) -> Result<Option<List<Name>>, OutOfMemory> {
    if given.is_empty() {
        return Ok(None);
    }
    Ok(Some(names_of(alloc, given)?))
}

fn drain_of(alloc: Global, site: &Site, given: &Option<List<Name>>, at_a_time: u32) -> Option<Seen>
    requires { IsSite site.now }
{
    match drain(alloc, site, given, at_a_time) {
        Ok(drained) => Some(seen_of(&drained)),
        Err(_) => None,
    }
}

// What is told where these cells are emptied, in batches of at most so many.
fn drained(alloc: Global, lines: &[&str], given: &[Name], at_a_time: u32) -> Option<Seen> {
    let given = given_of(alloc, given).ok()?;
    match site_of(alloc, lines) {
        Some(site) => drain_of(alloc, &site, &given, at_a_time),
        None => None,
    }
}

// c1 and c2 go together, and c3 alone.
#[test]
fn a_batch_ends_with_its_zone(rt: HostRuntime) -> Result<(), Fail> {
    let wanted = Seen {
        whole: [3, 0, 4, 2, 1, 1, 1, 2, 2, 0],
        steps: [Some([2, 2, 0, 0, 512]), Some([1, 2, 0, 0, 1536]), None],
    };
    let seen = drained(rt.alloc(), &[WEB_0, WEB_1, EMPTY], &[], 5);
    assert_eq!(rt; seen, Some(wanted));
    Ok(())
}

// The other one waits in the second step, and goes to a cell that came back.
#[test]
fn what_found_no_room_waits_on(rt: HostRuntime) -> Result<(), Fail> {
    let wanted = Seen {
        whole: [3, 1, 3, 2, 1, 1, 1, 2, 2, 2],
        steps: [Some([2, 2, 1, 0, 0]), Some([1, 1, 0, 0, 1536]), None],
    };
    let seen = drained(rt.alloc(), &[WEB_0, WEB_1, SMALL], &[], 2);
    assert_eq!(rt; seen, Some(wanted));
    Ok(())
}

// It comes back empty, and no step is left in which its instance could go back.
#[test]
fn the_only_cell_leaves_no_room(rt: HostRuntime) -> Result<(), Fail> {
    let wanted = Seen {
        whole: [1, 1, 0, 0, 1, 0, 0, 1, 1, 2],
        steps: [Some([1, 1, 1, 0, 0]), None, None],
    };
    assert_eq!(rt; drained(rt.alloc(), &[WEB_0], &[], 1), Some(wanted));
    Ok(())
}

// What runs on c1 goes to the zone that has none, and stays there.
#[test]
fn a_cell_that_is_given_goes_alone(rt: HostRuntime) -> Result<(), Fail> {
    let c1 = Name::read(b"c1")?;
    let wanted = Seen {
        whole: [1, 0, 1, 1, 1, 1, 0, 1, 2, 0],
        steps: [Some([1, 1, 0, 0, 1536]), None, None],
    };
    let seen = drained(rt.alloc(), &[WEB_0, WEB_1, EMPTY], &[c1], 3);
    assert_eq!(rt; seen, Some(wanted));
    Ok(())
}

// What stands on the silent cell stays held. If that cell alone is given, nothing is emptied.
#[test]
fn silent_cells_are_passed_over(rt: HostRuntime) -> Result<(), Fail> {
    let c4 = Name::read(b"c4")?;
    let lines = [WEB_0, WEB_1, EMPTY, SILENT];
    let all = Seen {
        whole: [3, 0, 4, 2, 1, 1, 1, 2, 2, 0],
        steps: [Some([2, 2, 0, 0, 512]), Some([1, 2, 0, 0, 1536]), None],
    };
    assert_eq!(rt; drained(rt.alloc(), &lines, &[], 2), Some(all));
    let nothing = Seen {
        whole: [0, 0, 0, 0, 1, 1, 1, 0, 2, 0],
        steps: [None, None, None],
    };
    assert_eq!(rt; drained(rt.alloc(), &lines, &[c4], 2), Some(nothing));
    Ok(())
}

// Of a cell: the MB and the containers that are free, and what it has.
fn cell_at(cells: &[Answer], at: usize) -> Option<[u64; 3]> {
    if at < cells.len() {
        let free = cells[at].free;
        let has = cells[at].containers.len() as u64;
        Some([u64::from(free.memory), u64::from(free.containers), has])
    } else {
        None
    }
}

fn cells_of(site: &Site) -> [Option<[u64; 3]>; 3] {
    let cells = site.cells.items();
    [cell_at(cells, 0), cell_at(cells, 1), cell_at(cells, 2)]
}

fn cells_left(
    alloc: Global,
    site: &Site,
    batch: &[Name],
    plan: &Plan,
) -> Option<[Option<[u64; 3]>; 3]>
    requires sound { IsSite site.now }
    requires level { IsLevel site.now }
    requires plan { plan.now ≡ planned site.now batch.now }
{
    match after_step(alloc, site, batch, plan) {
        Ok(next) => Some(cells_of(&next)),
        Err(_) => None,
    }
}

fn cells_after(alloc: Global, site: &Site, batch: &[Name]) -> Option<[Option<[u64; 3]>; 3]>
    requires sound { IsSite site.now }
    requires level { IsLevel site.now }
{
    match plan_of(alloc, site, batch) {
        Ok(plan) => cells_left(alloc, site, batch, &plan),
        Err(_) => None,
    }
}

// The cells before a step that empties these, and after it.
type Steps = [Option<[Option<[u64; 3]>; 3]>; 2];

fn step_on(alloc: Global, site: &Site, batch: &[Name]) -> Steps
    requires { IsSite site.now }
{
    match levelled(alloc, site) {
        Ok(start) => [Some(cells_of(&start)), cells_after(alloc, &start, batch)],
        Err(_) => [None, None],
    }
}

fn stepped(alloc: Global, lines: &[&str], batch: &[Name]) -> Steps {
    match site_of(alloc, lines) {
        Some(site) => step_on(alloc, &site, batch),
        None => [None, None],
    }
}

// A cell takes no container that it has already. What is emptied comes back with all that it has.
#[test]
fn a_step_leaves_a_level_site(rt: HostRuntime) -> Result<(), Fail> {
    let c1 = Name::read(b"c1")?;
    let before = [Some([768, 49, 1]), Some([768, 49, 1]), Some([1024, 50, 0])];
    let after = [Some([1024, 50, 0]), Some([768, 49, 1]), Some([768, 49, 1])];
    let lines = [WEB_0_NOT_COUNTED, WEB_1, EMPTY];
    assert_eq!(rt;
        stepped(rt.alloc(), &lines, &[c1]),
        [Some(before), Some(after)]
    );
    Ok(())
}
