//! Containers that are of no use are stopped.
ghost use Rattle.std.specs.Prelude.{◌≡◌, ◌<◌, ◌++◌, [], length, slice_get, Some, IfOk, OnOk};
ghost use Rattle.bbs_model.specs.PortView.{rows_seen, Looks};
ghost use Rattle.bbs_model.specs.Valid.{IsValid};
ghost use Rattle.cell_rep.specs.Ends.{without};
ghost use Rattle.converge_round.specs.Each.{Each};
ghost use Rattle.converge_round.specs.Phases.{AreStopped};
ghost use Rattle.converge_round.specs.Reps.{names_of, IsRepIndex, KeepReps};
ghost use Rattle.converge_round.specs.SeenRows.{AreSeen, WereSeen};
ghost use Rattle.converge_round.specs.Sendings.{wire_at};
ghost use Rattle.converge_round.specs.Stops as told;

use crate::rep_index::RepIndex;
use crate::seen_rows::SeenRows;
use crate::sending::reaches;
use bbs_model::{Port, Rows};
use cell_records::Answer;
use cell_rep::{CallKind, CellRep, Wire};
use convergence::strays;
use diego_names::{Instance, List, Name, OutOfMemory};
use std::alloc::Global;

/// What came of the stops of a round.
#[derive(Debug, Drop)]
pub struct Stops {
    pub(crate) stopped: List<(Name, Instance)>,
    /// How many were lost.
    pub(crate) lost: u64,
}

/// A rep gives a container up, if it has it.
fn give_up(rep: &mut CellRep, instance: &Instance)
    ensures is { rep.new ≡ without rep.old instance.now }
    ensures cell { rep.new.cell ≡ rep.old.cell }
{
    match rep.stop(instance) {
        Ok(()) => {}
        Err(_) => {}
    }
}

/// The rep at a place gives a container up.
fn give_up_at(cells: &mut [CellRep], at: usize, stray: &(Name, Instance))
    requires { at < length cells.old }
    ensures gives_up { slice_get (names_of cells.old) at ≡ Some stray.now.0 →
        told.LetsGo stray.now cells.old cells.new }
    ensures cells { KeepReps cells.old cells.new }
{
    give_up(&mut cells[at], &stray.1)
}

/// One stop goes to a cell's rep. Returns whether it reached it.
fn stop<W: Wire>(
    cells: &mut [CellRep],
    index: &RepIndex,
    wire: &mut W,
    stray: &(Name, Instance),
) -> bool
    requires { IsRepIndex (names_of cells.old) index.now }
    ensures stops { told.IsStrayStopped stray.now result
        (told.stops_at (wire_at (W.ends wire.old) (W.losses wire.old)) cells.old)
        (told.stops_at (wire_at (W.ends wire.new) (W.losses wire.new)) cells.new) }
    ensures cells { KeepReps cells.old cells.new }
{
    if !reaches(wire, stray.0, CallKind::Stop) {
        return false;
    }
    match index.find(&stray.0) {
        None => false,
        Some(at) => {
            give_up_at(cells, at, stray);
            true
        }
    }
}

fn add_if(
    stopped: &mut List<(Name, Instance)>,
    done: bool,
    stray: &(Name, Instance),
) -> Result<(), OutOfMemory>
    ensures { OnOk result (stopped.new ≡ stopped.old ++ told.if_done done stray.entry.now) }
{
    if done { stopped.push(*stray) } else { Ok(()) }
}

/// One stop more, which is kept where it is done.
fn stop_next<W: Wire>(
    cells: &mut [CellRep],
    index: &RepIndex,
    wire: &mut W,
    stray: &(Name, Instance),
    stopped: &mut List<(Name, Instance)>,
) -> Result<(), OutOfMemory>
    requires { IsRepIndex (names_of cells.old) index.now }
    ensures cells { KeepReps cells.old cells.new }
    ensures stops { OnOk result (told.StopsOne stray.entry.now
        (told.so_far (told.stops_at (wire_at (W.ends wire.old) (W.losses wire.old)) cells.old)
        stopped.old)
        (told.so_far (told.stops_at (wire_at (W.ends wire.new) (W.losses wire.new)) cells.new)
        stopped.new)) }
{
    let done = stop(cells, index, wire, stray);
    add_if(stopped, done, stray)
}

/// Stops these containers, in order, and returns those whose stop reached its rep.
fn stop_each<W: Wire>(
    alloc: Global,
    cells: &mut [CellRep],
    index: &RepIndex,
    wire: &mut W,
    strays: &[(Name, Instance)],
) -> Result<List<(Name, Instance)>, OutOfMemory>
    requires { IsRepIndex (names_of cells.old) index.now }
    ensures cells { KeepReps cells.old cells.new }
    ensures stops { IfOk result (λ stopped. Each told.StopsOne strays.entry.now
        (told.so_far (told.stops_at (wire_at (W.ends wire.old) (W.losses wire.old)) cells.old) [])
        (told.so_far (told.stops_at (wire_at (W.ends wire.new) (W.losses wire.new)) cells.new)
        stopped)) }
{
    let mut stopped = List::new(alloc);
    for stray in strays {
        stop_next(cells, index, wire, stray, &mut stopped)?;
    }
    Ok(stopped)
}

/// Stops what no row needs by these rows.
fn stop_by<W: Wire>(
    alloc: Global,
    rows: &Rows,
    cells: &mut [CellRep],
    index: &RepIndex,
    wire: &mut W,
    got: &[Answer],
) -> Result<Stops, OutOfMemory>
    requires valid { IsValid rows.now }
    requires index { IsRepIndex (names_of cells.old) index.now }
    ensures cells { KeepReps cells.old cells.new }
    ensures stops { IfOk result (AreStopped rows.entry.now got.entry.now
        (told.stops_at (wire_at (W.ends wire.old) (W.losses wire.old)) cells.old)
        (told.stops_at (wire_at (W.ends wire.new) (W.losses wire.new)) cells.new)) }
{
    match strays(alloc, rows, got) {
        Err(want) => Err(want),
        Ok(strays) => match stop_each(alloc, cells, index, wire, strays.items()) {
            Err(want) => Err(want),
            Ok(stopped) => {
                let (all, done) = (strays.len() as u64, stopped.len() as u64);
                let lost = all.saturating_sub(done);
                Ok(Stops { stopped, lost })
            }
        },
    }
}

/// Stops what no row of now needs.
pub(crate) fn stop_strays<P: Port, W: Wire>(
    alloc: Global,
    port: &mut P,
    seen: &mut SeenRows,
    cells: &mut [CellRep],
    index: &RepIndex,
    wire: &mut W,
    got: &[Answer],
) -> Result<Stops, OutOfMemory>
    requires seen { WereSeen (P.view port.old) seen.old }
    requires index { IsRepIndex (names_of cells.old) index.now }
    ensures keeps { P.keeps port.old port.new }
    ensures number { P.number port.new ≡ P.number port.old }
    ensures looks { Looks (P.view port.old) (P.view port.new) }
    ensures cells { KeepReps cells.old cells.new }
    ensures stops { IfOk result (AreStopped (rows_seen (P.view port.new)) got.entry.now
        (told.stops_at (wire_at (W.ends wire.old) (W.losses wire.old)) cells.old)
        (told.stops_at (wire_at (W.ends wire.new) (W.losses wire.new)) cells.new)) }
    ensures seen { OnOk result (AreSeen (P.view port.new) seen.new) }
{
    match seen.renew(alloc, port) {
        Err(want) => Err(want),
        Ok(()) => stop_by(alloc, &seen.rows, cells, index, wire, got),
    }
}
