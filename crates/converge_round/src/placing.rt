//! Which jobs go to which cells.
ghost use Rattle.std.specs.Prelude.{◌≡◌, [], IfOk, OnOk};
ghost use Rattle.auctioneer.specs.Asked.{AreAnswers};
ghost use Rattle.bbs_model.specs.Valid.{IsValid};
ghost use Rattle.converge_round.specs.Each.{Each};
ghost use Rattle.converge_round.specs.Phases.{AreFewApart, ArePlaced};
ghost use Rattle.converge_round.specs.Places as told;
ghost use Rattle.converge_round.specs.Reps.{names_of, IsRepIndex};

use crate::adding::add;
use crate::asking::{add_answer, answer_of_cell};
use crate::jobs::jobs_of;
use crate::rep_index::RepIndex;
use auctioneer::{Placement, run_auction};
use bbs_model::{Command, Op, Rows};
use cell_records::{Answer, JobName};
use cell_rep::CellRep;
use convergence::find_sorted;
use crash_backoff::Moment;
use diego_names::{List, Name, OutOfMemory};
use lrp_records::{Actual, Presence};
use std::alloc::Global;

/// Where the work that waits goes.
#[derive(Debug, Drop)]
pub struct Places {
    /// The rows as they were then.
    pub(crate) rows: Rows,
    /// What the cells had left that jobs could go to.
    pub(crate) roomy: List<Answer>,
    pub(crate) placements: List<Placement>,
}

/// Whether the board knows that the cell is being emptied.
fn is_being_emptied(rows: &Rows, cell: &Name) -> bool
    requires { IsValid rows.now }
    ensures { result ≡ told.is_being_emptied rows.now cell.now }
{
    match find_sorted(rows.cells.items(), cell) {
        None => false,
        Some(row) => row.evacuating,
    }
}

/// What a cell that answered has now, but for one that is being emptied.
fn open_cell(
    alloc: Global,
    rows: &Rows,
    cells: &[CellRep],
    index: &RepIndex,
    answer: &Answer,
) -> Result<Option<Answer>, OutOfMemory>
    requires valid { IsValid rows.now }
    requires index { IsRepIndex (names_of cells.now) index.now }
    ensures { IfOk result (told.OpensIf (told.is_being_emptied rows.now answer.now.cell)
        cells.now answer.now) }
{
    if is_being_emptied(rows, &answer.cell) {
        Ok(None)
    } else {
        answer_of_cell(alloc, cells, index, &answer.cell, answer.epoch)
    }
}

/// One cell more.
fn open_next(
    alloc: Global,
    rows: &Rows,
    cells: &[CellRep],
    index: &RepIndex,
    answer: &Answer,
    roomy: &mut List<Answer>,
) -> Result<(), OutOfMemory>
    requires valid { IsValid rows.now }
    requires index { IsRepIndex (names_of cells.now) index.now }
    ensures { OnOk result
        (told.OpensOne rows.entry.now cells.entry.now answer.entry.now roomy.old roomy.new) }
{
    match open_cell(alloc, rows, cells, index, answer) {
        Err(want) => Err(want),
        Ok(now) => add_answer(roomy, now),
    }
}

/// What the cells that answered have now, but for those that are being emptied.
pub(crate) fn open_cells(
    alloc: Global,
    rows: &Rows,
    cells: &[CellRep],
    index: &RepIndex,
    got: &[Answer],
) -> Result<List<Answer>, OutOfMemory>
    requires valid { IsValid rows.now }
    requires index { IsRepIndex (names_of cells.now) index.now }
    ensures { IfOk result (Each (told.OpensOne rows.now cells.now) got.now []) }
{
    let mut roomy = List::new(alloc);
    for answer in got {
        open_next(alloc, rows, cells, index, answer, &mut roomy)?;
    }
    Ok(roomy)
}

/// Where the work that waits goes, on cells that have so much left.
pub(crate) fn place_jobs(
    alloc: Global,
    rows: &Rows,
    roomy: &[Answer],
) -> Result<List<Placement>, OutOfMemory>
    requires valid { IsValid rows.now }
    requires cells { AreAnswers roomy.now }
    ensures { IfOk result (λ list. list ≡ told.placements rows.now roomy.now) }
{
    let jobs = jobs_of(alloc, rows)?;
    run_auction(alloc, jobs.items(), roomy)
}

/// Where the work that waits goes, on what the cells that answered have left.
pub(crate) fn place_on(
    alloc: Global,
    rows: Rows,
    cells: &[CellRep],
    index: &RepIndex,
    got: &[Answer],
) -> Result<Places, OutOfMemory>
    requires valid { IsValid rows }
    requires index { IsRepIndex (names_of cells.now) index.now }
    requires got { AreFewApart got.now }
    ensures { IfOk result (ArePlaced rows cells.now got.now) }
{
    match open_cells(alloc, &rows, cells, index, got) {
        Err(want) => Err(want),
        Ok(roomy) => match place_jobs(alloc, &rows, roomy.items()) {
            Err(want) => Err(want),
            Ok(placements) => Ok(Places {
                rows,
                roomy,
                placements,
            }),
        },
    }
}

/// The job that no cell had room for, if there was none.
fn without_room(placement: &Placement) -> Option<JobName>
    ensures { result ≡ told.without_room placement.now }
{
    match *placement {
        Placement::NoRoom { job } => Some(job),
        Placement::On { .. } => None,
    }
}

/// The jobs that no cell had room for, in the order of the auction.
pub(crate) fn unplaced(
    alloc: Global,
    placements: &[Placement],
) -> Result<List<JobName>, OutOfMemory>
    ensures { IfOk result (λ jobs. jobs ≡ told.unplaced placements.now) }
{
    let mut jobs = List::new(alloc);
    for placement in placements {
        add(&mut jobs, without_room(placement))?;
    }
    Ok(jobs)
}

/// A row that doesn't tell yet that there is no room is to do so.
fn fail_if(now: Moment, row: &Actual) -> Option<Command>
    ensures { result ≡ told.fail_if now row.now }
{
    if row.error {
        return None;
    }
    let op = Op::PlaceFail { key: row.key };
    Some(Command { now, op })
}

/// An instance that has no room tells so, if its row doesn't yet.
fn fail_of(rows: &Rows, now: Moment, job: &JobName) -> Option<Command>
    requires { IsValid rows.now }
    ensures { result ≡ told.fail_of rows.now now job.now }
{
    match *job {
        JobName::Task(_) => None,
        JobName::Lrp(key) => match find_sorted(rows.actual.items(), &(key, Presence::Ordinary)) {
            Some(row) => fail_if(now, &row),
            None => None,
        },
    }
}

/// What is told of the jobs that have no room.
pub(crate) fn fails_of(
    alloc: Global,
    rows: &Rows,
    now: Moment,
    jobs: &[JobName],
) -> Result<List<Command>, OutOfMemory>
    requires { IsValid rows.now }
    ensures { IfOk result (λ fails. fails ≡ told.fails_of rows.now now jobs.now) }
{
    let mut fails = List::new(alloc);
    for job in jobs {
        add(&mut fails, fail_of(rows, now, job))?;
    }
    Ok(fails)
}
