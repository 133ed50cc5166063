//! What cells come to when a call, its reply or the disk fails, when the board refuses them, and when there is no
//! room on them. What has to come is taken from the rules of cells and of the board's step.
ghost use Rattle.std.specs.Prelude.{◌≤◌};
ghost use Rattle.bbs_model.specs.Limits.{most_transitions};
ghost use Rattle.bbs_model.specs.Valid.{IsValid};

mod again;
mod alone;
mod emptied;
mod full;
mod moved;
mod names;
mod refusals;
mod rivals;
mod scan;
mod stories;

use super::*;
use bbs_model::{BoardRefusal, Port, Reply, Rows};
use cell_rep::{CallEnd, Called, CellRep, Delivery, MemoryWire, Wire};
use crash_backoff::Moment;
use diego_names::{List, Name, OutOfMemory};
use std::alloc::Global;
use std::process::Abort;

// A board without rows that has made so many transitions.
fn empty_board(alloc: Global, next: u64) -> Rows
    requires { next ≤ most_transitions }
    ensures { IsValid result }
{
    Rows {
        desired: List::new(alloc),
        actual: List::new(alloc),
        tasks: List::new(alloc),
        cells: List::new(alloc),
        domains: List::new(alloc),
        next,
    }
}

// A cell that has not joined, its way to the board, and the wire on it.
#[derive(Drop)]
struct Site<P, W> {
    rep: CellRep,
    port: P,
    wire: W,
}

// The board has no rows; its disk fails at this place, if at any, and the wire does this to one delivery.
fn site_of(
    alloc: Global,
    cell: Name,
    fails_at: Option<u64>,
    lost: Option<(u64, Delivery)>,
) -> Result<Site<FailingPort, MemoryWire>, OutOfMemory> {
    let mut listed = Vec::new(alloc);
    if let Some(entry) = lost {
        listed.push(entry)?;
    }
    let port = FailingPort::new(alloc, 7, empty_board(alloc, 0), fails_at)?;
    Ok(Site {
        rep: CellRep::new(cell),
        port,
        wire: MemoryWire::new(listed),
    })
}

// The board did what was asked, and nothing was in doubt before.
fn done(place: u64) -> CallEnd {
    CallEnd::Got(Reply::Ok {
        place,
        stamp: place,
    })
}

// The board did it, and one item before is a doubt, which is no transition.
fn done_behind_a_doubt(place: u64) -> CallEnd {
    let stamp = place.saturating_sub(1);
    CallEnd::Got(Reply::Ok { place, stamp })
}

fn same(place: u64) -> CallEnd {
    CallEnd::Got(Reply::Same { place })
}

fn refused(why: BoardRefusal, place: u64) -> CallEnd {
    CallEnd::Got(Reply::Refused { why, place })
}

fn ends_of(alloc: Global, answers: &[Called]) -> Result<Vec<CallEnd>, OutOfMemory> {
    let mut ends = Vec::new(alloc);
    for answer in answers {
        ends.push(answer.end)?;
    }
    Ok(ends)
}

// Takes turns, whose calls have to end so.
fn take<P: Port, W: Wire>(
    rt: &impl Abort,
    alloc: Global,
    site: &mut Site<P, W>,
    turns: &[Turn],
    ends: &[CallEnd],
) -> Result<(), OutOfMemory> {
    let Site { rep, port, wire } = site;
    let answers = play(alloc, rep, port, wire, Moment(0), turns)?;
    assert_eq!(rt; ends_of(alloc, &answers)?.as_slice(), ends);
    Ok(())
}

// Takes turns, each of which makes the next transition.
fn take_done<P: Port, W: Wire>(
    rt: &impl Abort,
    alloc: Global,
    site: &mut Site<P, W>,
    turns: &[Turn],
) -> Result<(), OutOfMemory> {
    let mut ends = Vec::new(alloc);
    let first = site.port.place();
    for turn in 0..turns.len() {
        ends.push(done(first.saturating_add(turn as u64)))?;
    }
    take(rt, alloc, site, turns, &ends)
}
