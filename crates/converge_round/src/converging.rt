//! A whole round.
ghost use Rattle.std.specs.Prelude.{◌≡◌, ◌<◌, ℕ, List, length, slice_get, Some, IfErr, IfOk, OnOk};
ghost use Rattle.bbs_model.specs.Valid.{IsValid};
ghost use Rattle.converge_round.specs.Callings.{AreOf};
ghost use Rattle.converge_round.specs.CellJobs.{AreCellJobs};
ghost use Rattle.converge_round.specs.Each.{Each};
ghost use Rattle.converge_round.specs.Faults.{IsCausedBy, IsSure};
ghost use Rattle.converge_round.specs.Items.{HasItems};
ghost use Rattle.converge_round.specs.Phases as told;
ghost use Rattle.converge_round.specs.Places.{jobs_on as jobs_there};
ghost use Rattle.converge_round.specs.Reps.{names_of, IsRepIndex, KeepReps};
ghost use Rattle.converge_round.specs.Rounds.{IsRound, standing};
ghost use Rattle.converge_round.specs.Sendings.{wire_at};
ghost use Rattle.converge_round.specs.Starts.{IsClaimOfOne};

use crate::cell_jobs::CellJobs;
use crate::closing::{call_fails, report_of};
use crate::counting::count_all;
use crate::opening::open_round;
use crate::placing::Places;
use crate::rep_index::RepIndex;
use crate::starting::claim_on;
use crate::tally::Tally;
use bbs_model::{CallFault, Port};
use cell_records::{Answer, Job};
use cell_rep::{CellRep, Wire};
use convergence::Report;
use crash_backoff::Moment;
use diego_names::Name;
use std::alloc::Global;

/// Starts these jobs on the rep at a place, and then what came of them counts.
fn claim_at<P: Port, W: Wire>(
    alloc: Global,
    port: &mut P,
    cells: &mut [CellRep],
    at: usize,
    wire: &mut W,
    jobs: &[Job],
    now: Moment,
    tally: &mut Tally,
) -> Result<(), CallFault>
    requires { at < length cells.old }
    ensures keeps { P.keeps port.old port.new }
    ensures number { P.number port.new ≡ P.number port.old }
    ensures own { (cell : List ℕ) → slice_get (names_of cells.old) at ≡ Some cell →
        AreOf (P.number port.old) (IsClaimOfOne now cell jobs.entry.now)
        (P.view port.old) (P.view port.new) }
    ensures cause { IfErr result (IsCausedBy (P.number port.old)
        (P.view port.old) (P.view port.new)) }
    ensures sure { IsSure result (P.view port.old) (P.view port.new) }
    ensures cells { KeepReps cells.old cells.new }
    ensures serves { OnOk result ((cell : List ℕ) →
        slice_get (names_of cells.old) at ≡ Some cell →
        told.ClaimsAt (P.number port.old) now cell jobs.entry.now
        (told.course (P.view port.old) tally.old cells.old
        (wire_at (W.ends wire.old) (W.losses wire.old)))
        (told.course (P.view port.new) tally.new cells.new
        (wire_at (W.ends wire.new) (W.losses wire.new)))) }
{
    match claim_on(alloc, port, &mut cells[at], wire, jobs, now) {
        Err(fault) => Err(fault),
        Ok(ends) => count_all(tally, ends.items()),
    }
}

/// Starts what goes to one cell.
fn start_on<P: Port, W: Wire>(
    alloc: Global,
    port: &mut P,
    cells: &mut [CellRep],
    index: &RepIndex,
    wire: &mut W,
    now: Moment,
    places: &Places,
    kept: &CellJobs,
    answer: &Answer,
    tally: &mut Tally,
) -> Result<(), CallFault>
    requires index { IsRepIndex (names_of cells.old) index.now }
    requires kept { AreCellJobs places.now.rows places.now.placements kept.now }
    ensures keeps { P.keeps port.old port.new }
    ensures number { P.number port.new ≡ P.number port.old }
    ensures own { AreOf (P.number port.old) (IsClaimOfOne now answer.entry.now.cell
        (jobs_there places.entry.now.rows places.entry.now.placements answer.entry.now.cell))
        (P.view port.old) (P.view port.new) }
    ensures cause { IfErr result (IsCausedBy (P.number port.old)
        (P.view port.old) (P.view port.new)) }
    ensures sure { IsSure result (P.view port.old) (P.view port.new) }
    ensures cells { KeepReps cells.old cells.new }
    ensures serves { OnOk result (told.ServesOne (P.number port.old) now places.entry.now
        answer.entry.now
        (told.course (P.view port.old) tally.old cells.old
        (wire_at (W.ends wire.old) (W.losses wire.old)))
        (told.course (P.view port.new) tally.new cells.new
        (wire_at (W.ends wire.new) (W.losses wire.new)))) }
{
    match index.find(&answer.cell) {
        None => Ok(()),
        Some(at) => {
            let jobs = kept.on(&answer.cell);
            claim_at(alloc, port, cells, at, wire, jobs, now, tally)
        }
    }
}

/// Starts what goes to each cell, in the order of the cells.
fn start_each<P: Port, W: Wire>(
    alloc: Global,
    port: &mut P,
    cells: &mut [CellRep],
    index: &RepIndex,
    wire: &mut W,
    now: Moment,
    places: &Places,
    tally: &mut Tally,
) -> Result<(), CallFault>
    requires index { IsRepIndex (names_of cells.old) index.now }
    requires valid { IsValid places.now.rows }
    ensures keeps { P.keeps port.old port.new }
    ensures number { P.number port.new ≡ P.number port.old }
    ensures own { AreOf (P.number port.old)
        (told.IsClaimFor now places.entry.now places.entry.now.roomy)
        (P.view port.old) (P.view port.new) }
    ensures cause { IfErr result (IsCausedBy (P.number port.old)
        (P.view port.old) (P.view port.new)) }
    ensures sure { IsSure result (P.view port.old) (P.view port.new) }
    ensures cells { KeepReps cells.old cells.new }
    ensures serves { OnOk result (Each (told.ServesOne (P.number port.old) now places.entry.now)
        places.entry.now.roomy
        (told.course (P.view port.old) tally.old cells.old
        (wire_at (W.ends wire.old) (W.losses wire.old)))
        (told.course (P.view port.new) tally.new cells.new
        (wire_at (W.ends wire.new) (W.losses wire.new)))) }
{
    let kept = match CellJobs::of(alloc, &places.rows, places.placements.items()) {
        Err(_) => return Err(CallFault::OutOfMemory),
        Ok(kept) => kept,
    };
    for answer in places.roomy.items() {
        match start_on(
            alloc, port, cells, index, wire, now, places, &kept, answer, tally,
        ) {
            Err(fault) => return Err(fault),
            Ok(()) => {}
        }
    }
    Ok(())
}

/// A round of convergence over a board, by whoever may call it at that moment: it asks the cells
/// that are present, calls what the rows and then the answers ask for, stops what no row needs,
/// and starts the work that waits. A fault of a call ends it, and what it did stays.
pub fn round<P: Port, W: Wire>(
    alloc: Global,
    port: &mut P,
    cells: &mut [CellRep],
    wire: &mut W,
    now: Moment,
    line: u32,
) -> Result<Report, CallFault>
    ensures keeps { P.keeps port.old port.new }
    ensures number { P.number port.new ≡ P.number port.old }
    ensures own { HasItems (P.number port.old) now cells.old
        (P.view port.old) (P.view port.new) }
    ensures cause { IfErr result (IsCausedBy (P.number port.old)
        (P.view port.old) (P.view port.new)) }
    ensures sure { IsSure result (P.view port.old) (P.view port.new) }
    ensures cells { KeepReps cells.old cells.new }
    ensures account { IfOk result (IsRound (P.number port.old) now line
        (standing (P.view port.old) cells.old (wire_at (W.ends wire.old) (W.losses wire.old)))
        (standing (P.view port.new) cells.new (wire_at (W.ends wire.new) (W.losses wire.new)))) }
{
    let start = port.place();
    let index = match RepIndex::of(alloc, cells) {
        Err(_) => return Err(CallFault::OutOfMemory),
        Ok(index) => index,
    };
    let mut tally = Tally::new(alloc);
    let opening = match open_round(alloc, port, cells, &index, wire, now, &mut tally) {
        Err(fault) => return Err(fault),
        Ok(opening) => opening,
    };
    match start_each(
        alloc,
        port,
        cells,
        &index,
        wire,
        now,
        &opening.places,
        &mut tally,
    ) {
        Err(fault) => return Err(fault),
        Ok(()) => {}
    }
    let unplaced = match call_fails(alloc, port, now, &opening, &mut tally) {
        Err(fault) => return Err(fault),
        Ok(unplaced) => unplaced,
    };
    match report_of(alloc, port, cells, opening, unplaced, tally, start, line) {
        Err(_) => Err(CallFault::OutOfMemory),
        Ok(report) => Ok(report),
    }
}
