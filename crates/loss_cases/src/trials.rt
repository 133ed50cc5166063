//! The auction of more instances.
ghost use Rattle.std.specs.Prelude.{◌≡◌, ◌≤◌, ◌^◌, ◌∷◌, [], ◌++◌, cond, length, IfOk, OnOk};
ghost use Rattle.std.specs.Option.{option_or};
ghost use Rattle.auctioneer.specs.Auction.{stands_with};
ghost use Rattle.auctioneer.specs.Least.{best};
ghost use Rattle.loss_cases.specs.Fits.{told_at, TriesAll, TriesOne};

use crate::placements::is_placed;
use auctioneer::{Auction, Placement, Stand};
use cell_records::Job;
use diego_names::{List, OutOfMemory};
use forecast_records::Unplaced;
use std::alloc::Global;
use what_if::unplaced_at;

// What jobs are placed against: the cells before the first of them, and all of them.
#[derive(Clone, Copy)]
pub(crate) struct Field<'a> {
    pub(crate) before: &'a [Stand],
    pub(crate) jobs: &'a [Job],
}

// What came of the jobs placed so far: where each went, those that found no room, and why the first
// of them found none.
#[derive(Drop)]
pub(crate) struct Trial {
    pub(crate) placements: List<Placement>,
    pub(crate) left: List<Job>,
    pub(crate) first: Option<Unplaced>,
}

// The first one that found no room: one that is known, or else this one.
fn first_or(first: Option<Unplaced>, field: &Field, turn: &[Stand], job: &Job) -> Option<Unplaced>
    requires few { length field.now.before.now ≤ 2 ^ 32 }
    requires turn { length turn.now ≤ 2 ^ 32 }
    ensures { result ≡ option_or first (Some (told_at field.now.before.now field.now.jobs.now turn.now job.now)) }
{
    match first {
        Some(known) => Some(known),
        None => Some(unplaced_at(false, field.before, field.jobs, turn, job)),
    }
}

// Notes a job that found no room, if it is one.
fn note_left(
    trial: &mut Trial,
    field: &Field,
    turn: &[Stand],
    job: &Job,
    left: bool,
) -> Result<(), OutOfMemory>
    requires few { length field.now.before.now ≤ 2 ^ 32 }
    requires turn { length turn.now ≤ 2 ^ 32 }
    ensures placements { trial.new.placements ≡ trial.old.placements }
    ensures left { OnOk result (trial.new.left
        ≡ trial.old.left ++ cond left (job.now ∷ []) []) }
    ensures first { OnOk result (trial.new.first ≡ cond left (option_or trial.old.first
        (Some (told_at field.now.before.now field.now.jobs.now turn.now job.now))) trial.old.first) }
{
    if left {
        trial.left.push(*job)?;
        trial.first = first_or(trial.first, field, turn, job);
    }
    Ok(())
}

// Places one more job.
fn try_one(
    auction: &mut Auction,
    trial: &mut Trial,
    field: &Field,
    job: &Job,
) -> Result<(), OutOfMemory>
    requires few { length field.now.before.now ≤ 2 ^ 32 }
    requires turn { length auction.old ≤ 2 ^ 32 }
    ensures tried { OnOk result (TriesOne field.now job.now auction.old trial.old trial.new) }
    ensures stands { OnOk result (auction.new
        ≡ stands_with job.now (best auction.old job.now) auction.old) }
{
    let placement = auction.place(job)?;
    trial.placements.push(placement)?;
    let left = !is_placed(&placement);
    note_left(trial, field, auction.stands(), job, left)?;
    Ok(())
}

// Places all jobs, in their order.
pub(crate) fn try_all(
    alloc: Global,
    auction: &mut Auction,
    field: &Field,
) -> Result<Trial, OutOfMemory>
    requires few { length field.now.before.now ≤ 2 ^ 32 }
    requires turn { length auction.old ≤ 2 ^ 32 }
    ensures { IfOk result (λ trial. TriesAll field.now auction.old trial auction.new) }
{
    let mut trial = Trial {
        placements: List::new(alloc),
        left: List::new(alloc),
        first: None,
    };
    for job in field.jobs {
        try_one(auction, &mut trial, field, job)?;
    }
    Ok(trial)
}
