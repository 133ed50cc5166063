//! The end of a round: the jobs that have no room, and the report.
ghost use Rattle.std.specs.Prelude.{◌≡◌, ◌++◌, IfErr, IfOk, OnOk};
ghost use Rattle.std.specs.List.{Contains, filter_map};
ghost use Rattle.std.specs.Option.{option_to_list};
ghost use Rattle.bbs_model.specs.PortView.{Looks};
ghost use Rattle.bbs_model.specs.Valid.{IsValid};
ghost use Rattle.cell_rep.specs.Reps.{answer_of};
ghost use Rattle.converge_round.specs.Callings.{calling, IsNoted, AreOf};
ghost use Rattle.converge_round.specs.Each.{Each};
ghost use Rattle.converge_round.specs.Faults.{IsCausedBy, IsSure};
ghost use Rattle.converge_round.specs.Phases as told;
ghost use Rattle.converge_round.specs.Places.{unplaced as without_room};
ghost use Rattle.converge_round.specs.Rounds.{IsReport};

use crate::asking::add_answer;
use crate::calls::call_each;
use crate::opening::Opening;
use crate::placing::{fails_of, unplaced};
use crate::tally::Tally;
use bbs_model::{CallFault, Port};
use cell_records::{Answer, JobName};
use cell_rep::CellRep;
use convergence::Report;
use crash_backoff::Moment;
use diego_names::{List, OutOfMemory};
use std::alloc::Global;
use std::snapshot::Snapshot;

/// One store more, if the rep answers.
fn add_store(alloc: Global, stores: &mut List<Answer>, rep: &CellRep) -> Result<(), OutOfMemory>
    ensures { OnOk result (stores.new ≡ stores.old ++ option_to_list (answer_of rep.entry.now)) }
{
    match rep.answer(alloc) {
        Err(want) => Err(want),
        Ok(answer) => add_answer(stores, answer),
    }
}

/// What the reps answer, of those that answer.
pub(crate) fn stores_of(alloc: Global, cells: &[CellRep]) -> Result<List<Answer>, OutOfMemory>
    ensures { IfOk result (λ stores. stores ≡ filter_map answer_of cells.now) }
{
    let mut stores = List::new(alloc);
    for rep in cells {
        add_store(alloc, &mut stores, rep)?;
    }
    Ok(stores)
}

/// Calls a note of each instance that has no room, and returns all jobs that have none.
pub(crate) fn call_fails<P: Port>(
    alloc: Global,
    port: &mut P,
    now: Moment,
    opening: &Opening,
    tally: &mut Tally,
) -> Result<List<JobName>, CallFault>
    requires { IsValid opening.now.places.rows }
    ensures keeps { P.keeps port.old port.new }
    ensures number { P.number port.new ≡ P.number port.old }
    ensures own { AreOf (P.number port.old) (Contains (told.fails_in now opening.entry.now.places))
        (P.view port.old) (P.view port.new) }
    ensures cause { IfErr result (IsCausedBy (P.number port.old)
        (P.view port.old) (P.view port.new)) }
    ensures sure { IsSure result (P.view port.old) (P.view port.new) }
    ensures unplaced { IfOk result
        (λ jobs. jobs ≡ without_room opening.entry.now.places.placements) }
    ensures noted { IfOk result (λ _. Each (IsNoted (P.number port.old))
        (told.fails_in now opening.entry.now.places)
        (calling (P.view port.old) tally.old) (calling (P.view port.new) tally.new)) }
{
    let jobs = match unplaced(alloc, opening.places.placements.items()) {
        Err(_) => return Err(CallFault::OutOfMemory),
        Ok(jobs) => jobs,
    };
    let fails = match fails_of(alloc, &opening.places.rows, now, jobs.items()) {
        Err(_) => return Err(CallFault::OutOfMemory),
        Ok(fails) => fails,
    };
    match call_each(port, fails.items(), tally) {
        Err(fault) => Err(fault),
        Ok(()) => Ok(jobs),
    }
}

/// The report of a round that began at the place `start` of the log and ends now.
pub(crate) fn report_of<P: Port>(
    alloc: Global,
    port: &mut P,
    cells: &[CellRep],
    opening: Opening,
    unplaced: List<JobName>,
    tally: Tally,
    start: u64,
    line: u32,
) -> Result<Report, OutOfMemory>
    requires { unplaced ≡ without_room opening.places.placements }
    ensures keeps { P.keeps port.old port.new }
    ensures number { P.number port.new ≡ P.number port.old }
    ensures looks { Looks (P.view port.old) (P.view port.new) }
    ensures report { IfOk result (IsReport line start opening tally cells.now
        (P.view port.new)) }
{
    let end = port.place();
    match stores_of(alloc, cells) {
        Err(want) => Err(want),
        Ok(stores) => Ok(Report {
            line,
            start,
            end,
            asked: opening.asked,
            lost: opening.lost.saturating_add(tally.lost),
            refused: tally.refused,
            unplaced,
            foreign: end.saturating_sub(start).saturating_sub(tally.own),
            own: tally.own,
            stopped: opening.stopped,
            stores: Snapshot::of(&stores),
        }),
    }
}
