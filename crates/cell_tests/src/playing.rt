//! Turns of a cell, of who else calls the board, and of a round, one after another.
ghost use Rattle.std.specs.Prelude.{◌≡◌, false, [], ◌∷◌, Some, IfOk, OnOk};
ghost use Rattle.cell_rep.specs.Deliveries.{is_call_lost, IsDelivered};
ghost use Rattle.cell_rep.specs.Follows.{stage};
ghost use Rattle.cell_rep.specs.Reps.{stopping};
ghost use Rattle.cell_tests.specs.Turns.{IsStopAnswer, IsTaken, HasOneAnswer, ArePlayed};

use bbs_model::{Command, Op, Port};
use cell_records::Job;
use cell_rep::{CallEnd, Called, CellAct, CellRep, RepRefusal, Wire, add_answer};
use crash_backoff::Moment;
use diego_names::{Instance, OutOfMemory};
use evacuation::evacuate;
use std::alloc::Global;

/// What is done next.
#[derive(Clone, Copy, Debug, PartialEq, Eq)]
pub enum Turn {
    /// Somebody else calls the board, over no wire.
    Board(Op),
    /// The cell acts.
    Act(CellAct),
    /// The cell tells the board that it is to be emptied, and no more.
    Drain,
    /// The cell is emptied.
    Evacuate,
    /// A round starts a job on the cell.
    Start(Job),
    /// A round gives up a container, over no wire.
    Stop(Instance),
}

// Somebody else's call.
fn call_board<P: Port>(port: &mut P, now: Moment, op: &Op) -> Called
    ensures keeps { P.keeps port.old port.new }
    ensures number { P.number port.new ≡ P.number port.old }
    ensures command { result.command ≡ Some (record { now = now; op = op.entry.now }) }
    ensures called { IsDelivered (P.number port.old) (P.view port.old)
        (record { now = now; op = op.entry.now }) result.end (P.view port.new) }
    ensures heard { is_call_lost result.end ≡ false }
{
    let end = match port.call(Command { now, op: *op }) {
        Ok(reply) => CallEnd::Got(reply),
        Err(fault) => CallEnd::Fault(fault),
    };
    let command = Some(Command { now, op: *op });
    Called { command, end }
}

// A container is given up.
fn give_up(rep: &mut CellRep, instance: &Instance) -> Called
    ensures { IsStopAnswer (stopping rep.old instance.now) rep.old rep.new result }
{
    let end = match rep.stop(instance) {
        Ok(()) => CallEnd::Idle,
        Err(why) => CallEnd::Local(RepRefusal::Store(why)),
    };
    Called { command: None, end }
}

// A turn that has one answer.
fn answer_once<P: Port, W: Wire>(
    alloc: Global,
    rep: &mut CellRep,
    port: &mut P,
    wire: &mut W,
    now: Moment,
    turn: &Turn,
) -> Called
    requires { HasOneAnswer turn.now }
    ensures keeps { P.keeps port.old port.new }
    ensures number { P.number port.new ≡ P.number port.old }
    ensures taken { IsTaken (P.number port.old) turn.entry.now now
        (stage rep.old (P.view port.old) (W.ends wire.old) (W.losses wire.old) [])
        (stage rep.new (P.view port.new) (W.ends wire.new) (W.losses wire.new) (result ∷ [])) }
{
    match turn {
        Turn::Board(op) => call_board(port, now, op),
        Turn::Drain => rep.drain(alloc, port, wire, now),
        Turn::Start(job) => rep.start_job(alloc, job, port, wire, now),
        Turn::Stop(instance) => give_up(rep, instance),
        Turn::Act(_) | Turn::Evacuate => unreachable!(),
    }
}

fn take_once<P: Port, W: Wire>(
    alloc: Global,
    rep: &mut CellRep,
    port: &mut P,
    wire: &mut W,
    now: Moment,
    turn: &Turn,
    out: &mut Vec<Called>,
) -> Result<(), OutOfMemory>
    requires { HasOneAnswer turn.now }
    ensures keeps { P.keeps port.old port.new }
    ensures number { P.number port.new ≡ P.number port.old }
    ensures taken { OnOk result (IsTaken (P.number port.old) turn.entry.now now
        (stage rep.old (P.view port.old) (W.ends wire.old) (W.losses wire.old) out.old.items)
        (stage rep.new (P.view port.new) (W.ends wire.new) (W.losses wire.new) out.new.items)) }
{
    out.reserve(1)?;
    let answer = answer_once(alloc, rep, port, wire, now, turn);
    add_answer(out, &answer);
    Ok(())
}

fn take_turn<P: Port, W: Wire>(
    alloc: Global,
    rep: &mut CellRep,
    port: &mut P,
    wire: &mut W,
    now: Moment,
    turn: &Turn,
    out: &mut Vec<Called>,
) -> Result<(), OutOfMemory>
    ensures keeps { P.keeps port.old port.new }
    ensures number { P.number port.new ≡ P.number port.old }
    ensures taken { OnOk result (IsTaken (P.number port.old) turn.entry.now now
        (stage rep.old (P.view port.old) (W.ends wire.old) (W.losses wire.old) out.old.items)
        (stage rep.new (P.view port.new) (W.ends wire.new) (W.losses wire.new) out.new.items)) }
{
    match turn {
        Turn::Act(act) => rep.act(alloc, act, port, wire, now, out),
        Turn::Evacuate => evacuate(rep, alloc, port, wire, now, out),
        _ => take_once(alloc, rep, port, wire, now, turn, out),
    }
}

/// Takes turns at a moment, over one rep, one port and one wire, and gives what they answered, in order.
pub fn play<P: Port, W: Wire>(
    alloc: Global,
    rep: &mut CellRep,
    port: &mut P,
    wire: &mut W,
    now: Moment,
    turns: &[Turn],
) -> Result<Vec<Called>, OutOfMemory>
    ensures keeps { P.keeps port.old port.new }
    ensures number { P.number port.new ≡ P.number port.old }
    ensures played { IfOk result (λ out. ArePlayed (P.number port.old) turns.entry.now now
        (stage rep.old (P.view port.old) (W.ends wire.old) (W.losses wire.old) [])
        (stage rep.new (P.view port.new) (W.ends wire.new) (W.losses wire.new) out.items)) }
{
    let mut out = Vec::new(alloc);
    for turn in turns {
        match take_turn(alloc, rep, port, wire, now, turn, &mut out) {
            Err(want) => return Err(want),
            Ok(()) => {}
        }
    }
    Ok(out)
}
