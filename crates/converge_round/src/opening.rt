//! A round up to its auction.
ghost use Rattle.std.specs.Prelude.{◌≡◌, [], IfErr, IfOk, OnOk};
ghost use Rattle.std.specs.List.{Contains};
ghost use Rattle.bbs_model.specs.PortView.{rows_seen, Looks};
ghost use Rattle.bbs_model.specs.Valid.{IsValid};
ghost use Rattle.bbs_model.specs.Work.{work};
ghost use Rattle.convergence.specs.Plans.{plan_of_answers};
ghost use Rattle.converge_round.specs.Callings.{calling};
ghost use Rattle.converge_round.specs.Faults.{IsCausedBy, IsSure};
ghost use Rattle.converge_round.specs.Items.{AreAsked, HasFirstItems};
ghost use Rattle.converge_round.specs.Reps.{names_of, IsRepIndex, KeepReps};
ghost use Rattle.converge_round.specs.Phases as told;
ghost use Rattle.converge_round.specs.SeenRows.{AreSeen, WereSeen};
ghost use Rattle.converge_round.specs.Sendings.{wire_at};

use crate::asking::{ask_each, present_cells};
use crate::calls::call_each;
use crate::placing::{Places, place_on};
use crate::rep_index::RepIndex;
use crate::seen_rows::SeenRows;
use crate::stopping::{Stops, stop_strays};
use crate::tally::Tally;
use bbs_model::{CallFault, Command, Port, Rows};
use cell_records::Answer;
use cell_rep::{CellRep, Wire};
use convergence::plan;
use crash_backoff::Moment;
use diego_names::{Instance, List, Name, OutOfMemory};
use std::alloc::Global;

/// What the cells answered.
#[derive(Debug, Drop)]
pub(crate) struct Hearing {
    /// How many cells were present.
    pub(crate) asked: u32,
    pub(crate) got: List<Answer>,
}

/// What a round knows once its auction was held.
#[derive(Debug, Drop)]
pub struct Opening {
    /// How many cells were present.
    pub(crate) asked: u32,
    /// How many gave no answer, and how many stops were lost.
    pub(crate) lost: u64,
    pub(crate) stopped: List<(Name, Instance)>,
    pub(crate) places: Places,
}

/// Asks each cell that is present by these rows.
fn hear_of<W: Wire>(
    alloc: Global,
    rows: &Rows,
    cells: &[CellRep],
    index: &RepIndex,
    wire: &mut W,
    now: Moment,
) -> Result<Hearing, OutOfMemory>
    requires valid { IsValid rows.now }
    requires index { IsRepIndex (names_of cells.now) index.now }
    ensures { IfOk result (told.IsHearing cells.now rows.now now
        (wire_at (W.ends wire.old) (W.losses wire.old))
        (wire_at (W.ends wire.new) (W.losses wire.new))) }
{
    let present = present_cells(alloc, rows, now)?;
    let got = ask_each(alloc, cells, index, wire, present.items())?;
    Ok(Hearing {
        asked: present.len() as u32,
        got,
    })
}

/// Reads the rows, and asks each cell that is present.
fn hear<P: Port, W: Wire>(
    alloc: Global,
    port: &mut P,
    cells: &[CellRep],
    index: &RepIndex,
    wire: &mut W,
    now: Moment,
) -> Result<(Hearing, SeenRows), OutOfMemory>
    requires { IsRepIndex (names_of cells.now) index.now }
    ensures keeps { P.keeps port.old port.new }
    ensures number { P.number port.new ≡ P.number port.old }
    ensures looks { Looks (P.view port.old) (P.view port.new) }
    ensures heard { IfOk result (λ x. told.IsHearing cells.now (rows_seen (P.view port.new)) now
        (wire_at (W.ends wire.old) (W.losses wire.old))
        (wire_at (W.ends wire.new) (W.losses wire.new)) x.0) }
    ensures seen { IfOk result (λ x. AreSeen (P.view port.new) x.1) }
{
    match SeenRows::read(alloc, port) {
        Err(want) => Err(want),
        Ok(seen) => match hear_of(alloc, &seen.rows, cells, index, wire, now) {
            Err(want) => Err(want),
            Ok(heard) => Ok((heard, seen)),
        },
    }
}

/// Calls what the rows ask for.
fn call_work<P: Port>(
    alloc: Global,
    port: &mut P,
    now: Moment,
    tally: &mut Tally,
) -> Result<(), CallFault>
    ensures keeps { P.keeps port.old port.new }
    ensures number { P.number port.new ≡ P.number port.old }
    ensures own { AreAsked (P.number port.old) (λ rows c. Contains (work rows now) c)
        (P.view port.old) (P.view port.new) }
    ensures cause { IfErr result (IsCausedBy (P.number port.old)
        (P.view port.old) (P.view port.new)) }
    ensures sure { IsSure result (P.view port.old) (P.view port.new) }
    ensures called { OnOk result (told.AreCalledBy (P.number port.old) (λ rows. work rows now)
        (calling (P.view port.old) tally.old) (calling (P.view port.new) tally.new)) }
{
    match port.work(alloc, now) {
        Err(_) => Err(CallFault::OutOfMemory),
        Ok(commands) => call_each(port, commands.items(), tally),
    }
}

/// What the answers ask for, by the rows of now.
fn read_plan<P: Port>(
    alloc: Global,
    port: &mut P,
    seen: &mut SeenRows,
    got: &[Answer],
    now: Moment,
) -> Result<List<Command>, OutOfMemory>
    requires { WereSeen (P.view port.old) seen.old }
    ensures keeps { P.keeps port.old port.new }
    ensures number { P.number port.new ≡ P.number port.old }
    ensures looks { Looks (P.view port.old) (P.view port.new) }
    ensures plan { IfOk result
        (λ list. list ≡ plan_of_answers (rows_seen (P.view port.new)) got.now now) }
    ensures seen { OnOk result (AreSeen (P.view port.new) seen.new) }
{
    match seen.renew(alloc, port) {
        Err(want) => Err(want),
        Ok(()) => plan(alloc, &seen.rows, got, now),
    }
}

/// Calls what the answers ask for.
fn call_plan<P: Port>(
    alloc: Global,
    port: &mut P,
    seen: &mut SeenRows,
    got: &[Answer],
    now: Moment,
    tally: &mut Tally,
) -> Result<(), CallFault>
    requires { WereSeen (P.view port.old) seen.old }
    ensures keeps { P.keeps port.old port.new }
    ensures number { P.number port.new ≡ P.number port.old }
    ensures own { AreAsked (P.number port.old)
        (λ rows c. Contains (plan_of_answers rows got.entry.now now) c)
        (P.view port.old) (P.view port.new) }
    ensures cause { IfErr result (IsCausedBy (P.number port.old)
        (P.view port.old) (P.view port.new)) }
    ensures sure { IsSure result (P.view port.old) (P.view port.new) }
    ensures called { OnOk result (told.AreCalledBy (P.number port.old)
        (λ rows. plan_of_answers rows got.entry.now now)
        (calling (P.view port.old) tally.old) (calling (P.view port.new) tally.new)) }
    ensures seen { OnOk result (WereSeen (P.view port.new) seen.new) }
{
    match read_plan(alloc, port, seen, got, now) {
        Err(_) => Err(CallFault::OutOfMemory),
        Ok(commands) => call_each(port, commands.items(), tally),
    }
}

/// Places the work that waits by the rows of now.
fn place_work<P: Port>(
    alloc: Global,
    port: &mut P,
    mut seen: SeenRows,
    cells: &[CellRep],
    index: &RepIndex,
    got: &[Answer],
) -> Result<Places, OutOfMemory>
    requires seen { WereSeen (P.view port.old) seen }
    requires index { IsRepIndex (names_of cells.now) index.now }
    requires got { told.AreFewApart got.now }
    ensures keeps { P.keeps port.old port.new }
    ensures number { P.number port.new ≡ P.number port.old }
    ensures looks { Looks (P.view port.old) (P.view port.new) }
    ensures placed { IfOk result
        (told.ArePlaced (rows_seen (P.view port.new)) cells.now got.now) }
{
    match seen.renew(alloc, port) {
        Err(want) => Err(want),
        Ok(()) => place_on(alloc, seen.rows, cells, index, got),
    }
}

/// What is known then.
fn opening_of(heard: &Hearing, stops: Stops, places: Places) -> Opening
    ensures asked { result.asked ≡ heard.now.asked }
    ensures lost { result.lost ≡ told.lost_before heard.now stops }
    ensures stopped { result.stopped ≡ stops.stopped }
    ensures places { result.places ≡ places }
{
    let silent = u64::from(heard.asked).saturating_sub(heard.got.len() as u64);
    Opening {
        asked: heard.asked,
        lost: silent.saturating_add(stops.lost),
        stopped: stops.stopped,
        places,
    }
}

/// The first five phases of a round: all up to the claims.
pub fn open_round<P: Port, W: Wire>(
    alloc: Global,
    port: &mut P,
    cells: &mut [CellRep],
    index: &RepIndex,
    wire: &mut W,
    now: Moment,
    tally: &mut Tally,
) -> Result<Opening, CallFault>
    requires { IsRepIndex (names_of cells.old) index.now }
    ensures keeps { P.keeps port.old port.new }
    ensures number { P.number port.new ≡ P.number port.old }
    ensures own { HasFirstItems (P.number port.old) now cells.old
        (P.view port.old) (P.view port.new) result }
    ensures cause { IfErr result (IsCausedBy (P.number port.old)
        (P.view port.old) (P.view port.new)) }
    ensures sure { IsSure result (P.view port.old) (P.view port.new) }
    ensures cells { KeepReps cells.old cells.new }
    ensures opened { IfOk result (told.IsOpenedRound (P.number port.old) now
        (told.course (P.view port.old) tally.old cells.old
        (wire_at (W.ends wire.old) (W.losses wire.old)))
        (told.course (P.view port.new) tally.new cells.new
        (wire_at (W.ends wire.new) (W.losses wire.new)))) }
{
    let (heard, mut seen) = match hear(alloc, port, cells, index, wire, now) {
        Err(_) => return Err(CallFault::OutOfMemory),
        Ok(both) => both,
    };
    match call_work(alloc, port, now, tally) {
        Err(fault) => return Err(fault),
        Ok(()) => {}
    }
    match call_plan(alloc, port, &mut seen, heard.got.items(), now, tally) {
        Err(fault) => return Err(fault),
        Ok(()) => {}
    }
    let stops = match stop_strays(
        alloc,
        port,
        &mut seen,
        cells,
        index,
        wire,
        heard.got.items(),
    ) {
        Err(_) => return Err(CallFault::OutOfMemory),
        Ok(stops) => stops,
    };
    match place_work(alloc, port, seen, cells, index, heard.got.items()) {
        Err(_) => Err(CallFault::OutOfMemory),
        Ok(places) => Ok(opening_of(&heard, stops, places)),
    }
}
