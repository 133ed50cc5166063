//! Turns of a story, over any port.
use bbs_model::{CallFault, Command, Op, Port, Reply};
use cell_rep::{CallEnd, Called, CellAct, CellRep, Delivery, MemoryWire};
use converge_round::round;
use convergence::Report;
use crash_backoff::Moment;
use diego_names::Instance;
use evacuation::evacuate;
use std::alloc::Global;
use std::test::Fail;

/// What somebody does. A cell is named by its place.
#[derive(Clone, Copy)]
pub enum Turn {
    /// A client calls the board, which does it.
    Client(Op),
    /// A cell acts, and the board does what it calls.
    Cell(usize, CellAct),
    /// A cell acts, and its first call ends so.
    Loses(usize, CellAct, Delivery),
    /// A cell is emptied.
    Evacuate(usize),
    /// A container is gone from a cell, which tells nobody.
    Gone(usize, Instance),
    /// A round over a wire that loses nothing.
    Round,
    /// A round over a wire whose delivery of this number, from 1, ends so.
    RoundLoses(u64, Delivery),
}

// A wire that gives the delivery of this number this end.
fn wire_of(alloc: Global, number: u64, end: Delivery) -> Result<MemoryWire, Fail> {
    let mut listed = Vec::new(alloc);
    listed.push((number, end))?;
    Ok(MemoryWire::new(listed))
}

fn is_fine(called: &Called) -> bool {
    matches!(
        called.end,
        CallEnd::Got(Reply::Ok { .. })
            | CallEnd::Got(Reply::Same { .. })
            | CallEnd::Idle
            | CallEnd::CallLost
            | CallEnd::ReplyLost(Ok(_))
    )
}

fn rep_at(cells: &mut [CellRep], at: usize) -> Result<&mut CellRep, Fail> {
    match cells.get_mut(at) {
        None => Err(Fail::from("there is such a cell")),
        Some(rep) => Ok(rep),
    }
}

fn client_calls<P: Port>(port: &mut P, now: Moment, op: Op) -> Result<(), Fail> {
    match port.call(Command { now, op }) {
        Ok(Reply::Ok { .. }) => Ok(()),
        _ => Err(Fail::from("the board does what a client asks")),
    }
}

fn are_fine(out: &[Called]) -> Result<(), Fail> {
    if out.iter().all(is_fine) {
        Ok(())
    } else {
        Err(Fail::from("the board does what a cell asks"))
    }
}

fn cell_acts<P: Port>(
    alloc: Global,
    port: &mut P,
    rep: &mut CellRep,
    now: Moment,
    act: &CellAct,
    end: Delivery,
) -> Result<(), Fail> {
    let mut wire = wire_of(alloc, 1, end)?;
    let mut out = Vec::new(alloc);
    match rep.act(alloc, act, port, &mut wire, now, &mut out) {
        Err(want) => return Err(Fail::from(want)),
        Ok(()) => {}
    }
    are_fine(&out)
}

fn cell_is_emptied<P: Port>(
    alloc: Global,
    port: &mut P,
    rep: &mut CellRep,
    now: Moment,
) -> Result<(), Fail> {
    let mut wire = MemoryWire::new(Vec::new(alloc));
    let mut out = Vec::new(alloc);
    match evacuate(rep, alloc, port, &mut wire, now, &mut out) {
        Err(want) => return Err(Fail::from(want)),
        Ok(()) => {}
    }
    are_fine(&out)
}

//// A round over a wire that gives the delivery of this number this end.
pub fn round_over<P: Port>(
    alloc: Global,
    port: &mut P,
    cells: &mut [CellRep],
    now: Moment,
    lost: (u64, Delivery),
) -> Result<Result<Report, CallFault>, Fail> {
    let (number, end) = lost;
    let mut wire = wire_of(alloc, number, end)?;
    Ok(round(alloc, port, cells, &mut wire, now, 1))
}

/// The same, which must end without a fault.
pub fn whole_round<P: Port>(
    alloc: Global,
    port: &mut P,
    cells: &mut [CellRep],
    now: Moment,
    lost: (u64, Delivery),
) -> Result<Report, Fail> {
    match round_over(alloc, port, cells, now, lost)? {
        Err(fault) => Err(Fail::from(fault)),
        Ok(report) => Ok(report),
    }
}

// The cell at that place acts.
fn cell_at_acts<P: Port>(
    alloc: Global,
    port: &mut P,
    cells: &mut [CellRep],
    at: usize,
    now: Moment,
    act: &CellAct,
    end: Delivery,
) -> Result<(), Fail> {
    let rep = rep_at(cells, at)?;
    cell_acts(alloc, port, rep, now, act, end)
}

// The cell at that place is emptied.
fn cell_at_is_emptied<P: Port>(
    alloc: Global,
    port: &mut P,
    cells: &mut [CellRep],
    at: usize,
    now: Moment,
) -> Result<(), Fail> {
    let rep = rep_at(cells, at)?;
    cell_is_emptied(alloc, port, rep, now)
}

fn give_up(cells: &mut [CellRep], at: usize, instance: &Instance) -> Result<(), Fail> {
    let rep = rep_at(cells, at)?;
    match rep.stop(instance) {
        Err(why) => Err(Fail::from(why)),
        Ok(()) => Ok(()),
    }
}

// What a round loses, if the turn is one.
fn lost_in(turn: &Turn) -> Option<(u64, Delivery)> {
    match turn {
        Turn::Round => Some((1, Delivery::Through)),
        Turn::RoundLoses(number, end) => Some((*number, *end)),
        _ => None,
    }
}

// Takes a turn that is no round.
fn act<P: Port>(
    alloc: Global,
    port: &mut P,
    cells: &mut [CellRep],
    now: Moment,
    turn: &Turn,
) -> Result<(), Fail> {
    match turn {
        Turn::Client(op) => client_calls(port, now, *op),
        Turn::Cell(at, act) => {
            cell_at_acts(alloc, port, cells, *at, now, act, Delivery::Through)
        }
        Turn::Loses(at, act, end) => cell_at_acts(alloc, port, cells, *at, now, act, *end),
        Turn::Evacuate(at) => cell_at_is_emptied(alloc, port, cells, *at, now),
        Turn::Gone(at, instance) => give_up(cells, *at, instance),
        Turn::Round | Turn::RoundLoses(_, _) => Ok(()),
    }
}

/// Takes a turn, and gives the report if it is a round.
pub fn take<P: Port>(
    alloc: Global,
    port: &mut P,
    cells: &mut [CellRep],
    now: Moment,
    turn: &Turn,
) -> Result<Option<Report>, Fail> {
    match lost_in(turn) {
        Some(lost) => match whole_round(alloc, port, cells, now, lost) {
            Err(fail) => Err(fail),
            Ok(report) => Ok(Some(report)),
        },
        None => match act(alloc, port, cells, now, turn) {
            Err(fail) => Err(fail),
            Ok(()) => Ok(None),
        },
    }
}
