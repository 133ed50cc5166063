//! What no clause says: that boards over a disk in memory are loaded, stored to and found again, and with
//! which answers. The program's own stored run does it over files.
mod calls;
mod defects;
mod failing;
mod heads;
mod old;
mod stops;

use crate::asserts::{are_bytes, holds, is_end, is_number};
use crate::bytes::{EMPTY, STORED};
use crate::making::{Opened, at, disk_of, found_in, loaded, wanted};
use bbs_board::{Board, Closed, prepare};
use bbs_model::{BoardRefusal, CallFault, Command, Item, Op, Reply, Rows};
use disk_trait::{Area, Disk, MemoryDisk};
use std::alloc::Global;
use std::process::Abort;
use std::test::Fail;

// How many device calls the load of a board without frames makes.
const CALLS: u64 = 7;

fn desire() -> Result<Command, Fail> {
    desire_of(b"web")
}

fn desire_of(process: &[u8]) -> Result<Command, Fail> {
    let desired = wanted(process, b"apps", 3)?;
    Ok(at(0, Op::Desire { desired }))
}

// A call of an actor, and how it has to end.
#[derive(Clone, Copy)]
struct Step {
    by: u32,
    command: Command,
    end: Result<Reply, CallFault>,
}

// The end of a transition whose item stands there, with this stamp.
fn done(place: u64, stamp: u64) -> Result<Reply, CallFault> {
    Ok(Reply::Ok { place, stamp })
}

// The end of a call that is refused for this.
fn refused(why: BoardRefusal, place: u64) -> Result<Reply, CallFault> {
    Ok(Reply::Refused { why, place })
}

fn call_all<D: Disk>(rt: &impl Abort, board: &mut Board<D>, steps: &[Step]) {
    for step in steps {
        is_end(rt, board.call(step.by, step.command), step.end);
    }
}

// Loads a board, makes these calls, and gives its disk, its log and its marks.
fn play<D: Disk + Drop>(
    rt: &impl Abort,
    alloc: Global,
    disk: D,
    steps: &[Step],
) -> Result<(D, Vec<Item>, Vec<u64>), Fail> {
    let mut board = loaded(alloc, disk)?;
    call_all(rt, &mut board, steps);
    let Closed { disk, log, marks } = board.close();
    Ok((disk, log, marks))
}

// The rows of the board of these areas.
fn rows_of(alloc: Global, a: &[u8], b: &[u8]) -> Result<Rows, Fail> {
    let Opened { kept: _, rows } = found_in(alloc, a, b)?;
    Ok(rows)
}

// Has the desire of an actor stored on a disk, and gives it back.
fn stored<D: Disk + Drop>(rt: &impl Abort, alloc: Global, disk: D, by: u32) -> Result<D, Fail> {
    let step = Step {
        by,
        command: desire()?,
        end: done(0, 0),
    };
    let (disk, _log, _marks) = play(rt, alloc, disk, &[step])?;
    Ok(disk)
}

// The same on a disk that is prepared first.
fn begin<D: Disk + Drop>(rt: &impl Abort, alloc: Global, mut disk: D) -> Result<D, Fail> {
    holds(rt, prepare(&mut disk).is_ok());
    stored(rt, alloc, disk, 1)
}

// Loads the disk, which must hold the desire.
fn find<D: Disk + Drop>(rt: &impl Abort, alloc: Global, disk: D) -> Result<(), Fail> {
    let step = Step {
        by: 1,
        command: desire()?,
        end: refused(BoardRefusal::Exists, 0),
    };
    let (_disk, _log, _marks) = play(rt, alloc, disk, &[step])?;
    Ok(())
}

fn has_no_rows(rt: &impl Abort, rows: &Rows) {
    holds(rt, rows.desired.items().is_empty());
    is_number(rt, rows.next, 0);
}

// The disk had the calls of a load, and its first area is this.
fn is_untouched(rt: &impl Abort, disk: &MemoryDisk, area: &[u8]) {
    is_number(rt, disk.clock(), CALLS);
    are_bytes(rt, disk.bytes(Area::A), area);
}

fn has_stored(rt: &impl Abort, disk: &MemoryDisk) {
    are_bytes(rt, disk.bytes(Area::A), &STORED);
}

#[test]
fn a_prepared_board_is_loaded_without_rows(rt: HostRuntime) -> Result<(), Fail> {
    let alloc = rt.alloc();
    has_no_rows(&rt, &rows_of(alloc, &EMPTY, b"")?);
    let (disk, _log, _marks) = play(&rt, alloc, disk_of(alloc, &EMPTY, b"", &[])?, &[])?;
    is_untouched(&rt, &disk, &EMPTY);
    Ok(())
}

#[test]
fn a_board_with_a_desire_is_loaded_with_its_row(rt: HostRuntime) -> Result<(), Fail> {
    let alloc = rt.alloc();
    find(&rt, alloc, disk_of(alloc, &STORED, b"", &[])?)?;
    // The other area is read too, and a closed one is passed over.
    find(&rt, alloc, disk_of(alloc, b"\0", &STORED, &[])?)
}

#[test]
fn the_next_load_finds_what_was_stored(rt: HostRuntime) -> Result<(), Fail> {
    let alloc = rt.alloc();
    let disk = begin(&rt, alloc, disk_of(alloc, b"", b"", &[])?)?;
    has_stored(&rt, &disk);
    find(&rt, alloc, disk)
}
