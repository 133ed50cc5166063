//! The auction of what waits, with what is told of each job that finds no room.
ghost use Rattle.std.specs.Prelude.{◌≡◌, ◌≤◌, ◌^◌, ◌∷◌, [], ◌++◌, cond, map, length, IfOk, OnOk};
ghost use Rattle.auctioneer.specs.Auction.{auction_from, placement_on, stands_with};
ghost use Rattle.auctioneer.specs.Least.{best};
ghost use Rattle.what_if.specs.Holders.{unplaced_by};
ghost use Rattle.what_if.specs.Placed.{PlacesAll, PlacesOne};
ghost use Rattle.what_if.specs.Plans.{is_left, unplaced_at, without_jobs};

use crate::standing::Holders;
use crate::waiting::held_before;
use auctioneer::{Auction, Placement, Stand};
use cell_records::Job;
use diego_names::{List, OutOfMemory};
use forecast_records::Unplaced;
use room_facts::{as_large, most_free, reasons_of, room_for};
use std::alloc::Global;

// The cells as far as room goes: their jobs aren't copied.
pub(crate) fn without_jobs(alloc: Global, stands: &[Stand]) -> Result<Vec<Stand>, OutOfMemory>
    ensures { IfOk result (λ bare. bare.items ≡ map without_jobs stands.now) }
{
    let bare = stands
        .iter()
        .map(|stand| Stand {
            cell: stand.cell,
            zone: stand.zone,
            tag: stand.tag,
            totals: stand.totals,
            free: stand.free,
            jobs: List::new(alloc),
        })
        .collect(alloc)?;
    Ok(bare)
}

// What jobs are placed against: the cells before the first of them, all of them, and who held what.
#[derive(Clone, Copy)]
pub(crate) struct Setting<'a> {
    pub(crate) before: &'a [Stand],
    pub(crate) jobs: &'a [Job],
    pub(crate) holders: &'a Holders,
}

/// Why the job has no room on the cells as its turn finds them, among these jobs and on these cells
/// before the first of them. It costs a look at each cell and each job.
pub fn unplaced_at(
    waited: bool,
    before: &[Stand],
    jobs: &[Job],
    turn: &[Stand],
    job: &Job,
) -> Unplaced
    requires few { length before.now ≤ 2 ^ 32 }
    requires turn { length turn.now ≤ 2 ^ 32 }
    ensures { result ≡ unplaced_at (λ j. waited) before.now jobs.now turn.now job.now }
{
    Unplaced {
        job: job.job,
        memory: job.memory,
        disk: job.disk,
        tag: job.tag,
        waited,
        reasons: reasons_of(job, turn),
        most_free: most_free(&job.tag, turn),
        as_large: as_large(job, jobs),
        room_for: room_for(job, before),
    }
}

fn unplaced(setting: &Setting, turn: &[Stand], job: &Job) -> Unplaced
    requires few { length setting.now.before.now ≤ 2 ^ 32 }
    requires turn { length turn.now ≤ 2 ^ 32 }
    ensures { result ≡ unplaced_by setting.now.holders.now setting.now.before.now
        setting.now.jobs.now turn.now job.now }
{
    let waited = held_before(setting.holders, &job.job).is_none();
    unplaced_at(waited, setting.before, setting.jobs, turn, job)
}

// Whether the job found no room.
fn is_left(placement: &Placement) -> bool
    ensures { result ≡ is_left placement.now }
{
    match placement {
        Placement::On { .. } => false,
        Placement::NoRoom { .. } => true,
    }
}

// What came of the jobs placed so far.
#[derive(Drop)]
pub(crate) struct Outcome {
    pub(crate) placements: List<Placement>,
    pub(crate) left: List<Job>,
    pub(crate) without_room: List<Unplaced>,
}

// Notes a job that found no room, and why, if it is one.
fn note_left(
    outcome: &mut Outcome,
    setting: &Setting,
    turn: &[Stand],
    job: &Job,
    left: bool,
) -> Result<(), OutOfMemory>
    requires few { length setting.now.before.now ≤ 2 ^ 32 }
    requires turn { length turn.now ≤ 2 ^ 32 }
    ensures placements { outcome.new.placements ≡ outcome.old.placements }
    ensures left { OnOk result (outcome.new.left ≡ outcome.old.left ++ cond left (job.now ∷ []) []) }
    ensures without_room { OnOk result (outcome.new.without_room ≡ outcome.old.without_room
        ++ cond left (unplaced_by setting.now.holders.now setting.now.before.now
        setting.now.jobs.now turn.now job.now ∷ []) []) }
{
    if left {
        outcome.left.push(*job)?;
        outcome.without_room.push(unplaced(setting, turn, job))?;
    }
    Ok(())
}

// Places one more job.
fn place_one(
    auction: &mut Auction,
    outcome: &mut Outcome,
    setting: &Setting,
    job: &Job,
) -> Result<(), OutOfMemory>
    requires few { length setting.now.before.now ≤ 2 ^ 32 }
    requires turn { length auction.old ≤ 2 ^ 32 }
    ensures placed { OnOk result (PlacesOne setting.now job.now auction.old outcome.old outcome.new) }
    ensures stands { OnOk result (auction.new ≡ stands_with job.now (best auction.old job.now) auction.old) }
{
    let placement = auction.place(job)?;
    outcome.placements.push(placement)?;
    let left = is_left(&placement);
    note_left(outcome, setting, auction.stands(), job, left)?;
    Ok(())
}

// Places all jobs, in their order.
pub(crate) fn place_all(
    alloc: Global,
    auction: &mut Auction,
    setting: &Setting,
) -> Result<Outcome, OutOfMemory>
    requires few { length setting.now.before.now ≤ 2 ^ 32 }
    requires turn { length auction.old ≤ 2 ^ 32 }
    ensures { IfOk result (λ outcome. PlacesAll setting.now auction.old outcome auction.new) }
{
    let mut outcome = Outcome {
        placements: List::new(alloc),
        left: List::new(alloc),
        without_room: List::new(alloc),
    };
    for job in setting.jobs {
        place_one(auction, &mut outcome, setting, job)?;
    }
    Ok(outcome)
}
