//! Jobs are started on cells.
ghost use Rattle.std.specs.Prelude.{◌≡◌, ◌∷◌, [], ◌++◌, IfErr, IfOk, OnOk};
ghost use Rattle.converge_round.specs.Callings.{AreOf};
ghost use Rattle.converge_round.specs.Faults.{IsCausedBy, IsFaultOf, IsSure, IsTold};
ghost use Rattle.converge_round.specs.Reps.{SameRep};
ghost use Rattle.converge_round.specs.Sendings.{wire_at};
ghost use Rattle.converge_round.specs.Starts as told;

use crate::adding::add_one;
use crate::claims::{Claimed, Start, StartEnd};
use crate::sending::reaches;
use bbs_model::{CallFault, Port};
use cell_records::Job;
use cell_rep::{CallKind, CellRep, Wire};
use crash_backoff::Moment;
use diego_names::{List, Name};
use std::alloc::Global;

/// One start goes to a cell's rep, which makes room for the job and claims it.
fn send_start<P: Port, W: Wire>(
    alloc: Global,
    port: &mut P,
    rep: &mut CellRep,
    wire: &mut W,
    start: Start,
    now: Moment,
) -> Claimed
    ensures keeps { P.keeps port.old port.new }
    ensures number { P.number port.new ≡ P.number port.old }
    ensures rep { SameRep rep.old rep.new }
    ensures start { result.start ≡ start }
    ensures starts { told.StartsOne (P.number port.old) now result
        (told.claiming rep.old (P.view port.old) (wire_at (W.ends wire.old) (W.losses wire.old)))
        (told.claiming rep.new (P.view port.new) (wire_at (W.ends wire.new) (W.losses wire.new))) }
{
    if reaches(wire, rep.cell(), CallKind::Start) {
        let called = rep.start_job(alloc, &start.job, port, wire, now);
        let end = StartEnd::Made(called);
        Claimed { start, end }
    } else {
        let end = StartEnd::Lost;
        Claimed { start, end }
    }
}

/// What came of a start is kept, unless that is a fault.
fn keep(ends: &mut List<Claimed>, claimed: &Claimed) -> Result<(), CallFault>
    ensures fine { OnOk result (told.IsFine claimed.entry.now.end) }
    ensures more { OnOk result (ends.new ≡ ends.old ++ claimed.entry.now ∷ []) }
    ensures cause { IfErr result (IsFaultOf claimed.entry.now.end) }
    ensures told { IsTold claimed.entry.now.end result }
{
    match claimed.end.fault() {
        Some(fault) => Err(fault),
        None => match add_one(ends, claimed) {
            Err(_) => Err(CallFault::OutOfMemory),
            Ok(()) => Ok(()),
        },
    }
}

/// One start more.
fn start_next<P: Port, W: Wire>(
    alloc: Global,
    port: &mut P,
    rep: &mut CellRep,
    wire: &mut W,
    job: &Job,
    now: Moment,
    ends: &mut List<Claimed>,
) -> Result<(), CallFault>
    ensures keeps { P.keeps port.old port.new }
    ensures number { P.number port.new ≡ P.number port.old }
    ensures own { AreOf (P.number port.old) (told.IsClaim now rep.old.cell job.entry.now)
        (P.view port.old) (P.view port.new) }
    ensures cause { IfErr result (IsCausedBy (P.number port.old)
        (P.view port.old) (P.view port.new)) }
    ensures sure { IsSure result (P.view port.old) (P.view port.new) }
    ensures rep { SameRep rep.old rep.new }
    ensures starts { OnOk result (told.AddsStart (P.number port.old) now job.entry.now
        (told.claiming rep.old (P.view port.old) (wire_at (W.ends wire.old) (W.losses wire.old)))
        (told.claiming rep.new (P.view port.new) (wire_at (W.ends wire.new) (W.losses wire.new)))
        ends.old ends.new) }
{
    let asked = Start {
        cell: rep.cell(),
        job: *job,
    };
    let claimed = send_start(alloc, port, rep, wire, asked, now);
    keep(ends, &claimed)
}

/// Starts the jobs of one cell, in order, and returns what came of each, unless that is a fault.
pub fn claim_on<P: Port, W: Wire>(
    alloc: Global,
    port: &mut P,
    rep: &mut CellRep,
    wire: &mut W,
    jobs: &[Job],
    now: Moment,
) -> Result<List<Claimed>, CallFault>
    ensures keeps { P.keeps port.old port.new }
    ensures number { P.number port.new ≡ P.number port.old }
    ensures own { AreOf (P.number port.old) (told.IsClaimOfOne now rep.old.cell jobs.entry.now)
        (P.view port.old) (P.view port.new) }
    ensures cause { IfErr result (IsCausedBy (P.number port.old)
        (P.view port.old) (P.view port.new)) }
    ensures sure { IsSure result (P.view port.old) (P.view port.new) }
    ensures rep { SameRep rep.old rep.new }
    ensures claims { IfOk result (told.Claims (P.number port.old) now jobs.entry.now
        (told.claiming rep.old (P.view port.old) (wire_at (W.ends wire.old) (W.losses wire.old)))
        (told.claiming rep.new (P.view port.new) (wire_at (W.ends wire.new) (W.losses wire.new)))) }
    ensures fine { IfOk result told.AreFine }
{
    let mut ends = List::new(alloc);
    for job in jobs {
        match start_next(alloc, port, rep, wire, job, now, &mut ends) {
            Err(fault) => return Err(fault),
            Ok(()) => {}
        }
    }
    Ok(ends)
}
