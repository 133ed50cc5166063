//! Each act whose call is lost, whose reply is lost, or whose item meets a fault of the disk; and then the same
//! act again, or another that makes the call again.
mod acts;

use super::names::Names;
use super::stories::{Left, begin, step};
use super::{Site, done, done_behind_a_doubt, site_of};
use crate::Turn;
use bbs_model::{CallFault, Port, Reply};
use cell_rep::{CallEnd, Delivery, Wire};
use diego_names::OutOfMemory;
use std::alloc::Global;
use std::process::Abort;

// What the first call of a turn meets.
#[derive(Clone, Copy)]
enum Mishap {
    CallLost,
    ReplyLost,
    DiskFault,
}

// A turn after turns of the cell that were done, each with one call; what a mishap of its first call leaves; the turn
// that makes the call again, and what that leaves.
#[derive(Clone, Copy)]
struct Tried {
    before: [Option<Turn>; 2],
    turn: Turn,
    left: Left,
    again: Turn,
    at_last: Left,
}

// How many turns come before.
fn count(before: &[Option<Turn>; 2]) -> u64 {
    match before {
        [None, _] => 0,
        [Some(_), None] => 1,
        [Some(_), Some(_)] => 2,
    }
}

// The board's place before the call, behind the four items of the beginning.
fn place_of(tried: &Tried) -> u64 {
    count(&tried.before).saturating_add(4)
}

// The delivery that is lost, if one is. The cell has called for its join, and for each turn before.
fn lost_in(tried: &Tried, mishap: Mishap) -> Option<(u64, Delivery)> {
    let number = count(&tried.before).saturating_add(2);
    match mishap {
        Mishap::CallLost => Some((number, Delivery::CallLost)),
        Mishap::ReplyLost => Some((number, Delivery::ReplyLost)),
        Mishap::DiskFault => None,
    }
}

fn fault_place(tried: &Tried, mishap: Mishap) -> Option<u64> {
    match mishap {
        Mishap::DiskFault => Some(place_of(tried)),
        _ => None,
    }
}

fn end_of(mishap: Mishap, place: u64) -> CallEnd {
    let stamp = place;
    match mishap {
        Mishap::CallLost => CallEnd::CallLost,
        Mishap::ReplyLost => CallEnd::ReplyLost(Ok(Reply::Ok { place, stamp })),
        Mishap::DiskFault => CallEnd::Fault(CallFault::Disk { place }),
    }
}

fn follow<P: Port + Drop, W: Wire + Drop>(
    rt: &impl Abort,
    alloc: Global,
    mut site: Site<P, W>,
    names: &Names,
    tried: &Tried,
    mishap: Mishap,
    ends: &[CallEnd],
) -> Result<(), OutOfMemory> {
    begin(rt, alloc, &mut site, names, &tried.before)?;
    let end = end_of(mishap, place_of(tried));
    step(rt, alloc, &mut site, &tried.turn, &[end], &tried.left)?;
    step(rt, alloc, &mut site, &tried.again, ends, &tried.at_last)
}

// After the mishap the turn that is taken again ends so.
fn after(
    rt: &impl Abort,
    alloc: Global,
    names: &Names,
    tried: &Tried,
    mishap: Mishap,
    ends: &[CallEnd],
) -> Result<(), OutOfMemory> {
    let fault = fault_place(tried, mishap);
    let site = site_of(alloc, names.cell, fault, lost_in(tried, mishap))?;
    follow(rt, alloc, site, names, tried, mishap, ends)
}

// The call is made again: it is done, unless its reply alone was lost; then this is its end.
fn is_made_again(
    rt: &impl Abort,
    alloc: Global,
    names: &Names,
    tried: &Tried,
    unheard: CallEnd,
) -> Result<(), OutOfMemory> {
    let place = place_of(tried);
    let behind = done_behind_a_doubt(place.saturating_add(1));
    after(rt, alloc, names, tried, Mishap::CallLost, &[done(place)])?;
    after(rt, alloc, names, tried, Mishap::ReplyLost, &[unheard])?;
    after(rt, alloc, names, tried, Mishap::DiskFault, &[behind])
}
