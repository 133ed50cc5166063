//! A checkpoint in which the disk fails, and the board that goes on.
use super::heads::BEFORE;
use super::life::{FULL_CALLS, area_with};
use super::stops::left;
use super::{CALLS, are_named, does};
use crate::asserts::{holds, is_end, is_kept, is_number, is_outcome};
use crate::making::{Opened, copy_of, desire, disk_in, disk_of, found, kept, loaded};
use bbs_board::Board;
use bbs_model::{CallFault, Command};
use disk_trait::{Area, Disk, MemoryDisk, Torn};
use std::alloc::Global;
use std::process::Abort;
use std::test::Fail;

// The first of these processes that could be made known, by its letter.
fn offer<D: Disk>(board: &mut Board<D>, offers: &[(u8, Command)]) -> u8 {
    for (letter, command) in offers {
        if does(board, *command) {
            return *letter;
        }
    }
    b'?'
}

// The checkpoint fails and adds no doubt, and what is called then is done in the end.
fn goes_on<D: Disk + Drop>(
    rt: &impl Abort,
    mut board: Board<D>,
    offers: &[(u8, Command)],
) -> (D, u8) {
    is_outcome(rt, board.checkpoint(), Err(CallFault::Disk { place: 0 }));
    holds(rt, board.log().is_empty());
    let done = offer(&mut board, offers);
    (disk_in(board), done)
}

/// The call fails and is a doubt, and what is called then is done in the end.
pub fn doubts<D: Disk + Drop>(
    rt: &impl Abort,
    mut board: Board<D>,
    doubt: Command,
    offers: &[(u8, Command)],
) -> (D, u8) {
    is_end(rt, board.call(1, doubt), Err(CallFault::Disk { place: 0 }));
    let done = offer(&mut board, offers);
    (disk_in(board), done)
}

/// Three processes that may be made known, each by its letter.
pub fn offers() -> Result<[(u8, Command); 3], Fail> {
    Ok([
        (b'n', desire(b'n', 1)?),
        (b'o', desire(b'o', 1)?),
        (b'p', desire(b'p', 1)?),
    ])
}

// A board is found there, with these processes.
fn is_found(
    rt: &impl Abort,
    alloc: Global,
    found: &Opened,
    area: Area,
    names: &[u8],
) -> Result<(), Fail> {
    holds(rt, found.kept.area == area);
    are_named(rt, alloc, &found.rows, names)
}

/// Each stop behind these calls leaves a board there, with the process that was done and the others.
pub fn leaves(
    rt: &impl Abort,
    alloc: Global,
    disk: &mut MemoryDisk,
    area: Area,
    names: &[u8],
) -> Result<(), Fail> {
    let end = disk.clock();
    // A stop within the next call is one after the last.
    holds(rt, disk.sync(Area::B).is_ok());
    for torn in [Torn::Old, Torn::New, Torn::Byte(7)] {
        let found = left(rt, alloc, disk, end.saturating_add(1), torn)?;
        is_found(rt, alloc, &found, area, names)?;
    }
    Ok(())
}

fn fails(rt: &impl Abort, alloc: Global, failing: &[u64]) -> Result<(), Fail> {
    let offers = offers()?;
    let board = loaded(alloc, disk_of(alloc, &BEFORE, b"", failing)?)?;
    let (mut disk, done) = goes_on(rt, board, &offers);
    leaves(rt, alloc, &mut disk, Area::A, &[done, b'w', b'e', b'b'])
}

#[test]
fn a_checkpoint_that_failed_leaves_no_doubt(rt: HostRuntime) -> Result<(), Fail> {
    let alloc = rt.alloc();
    for call in CALLS + 1..CALLS + 9 {
        fails(&rt, alloc, &[call])?;
        fails(&rt, alloc, &[call, call + 1])?;
    }
    Ok(())
}

// The checkpoint fails, and one that is asked for again is made in the end.
fn is_made<D: Disk + Drop>(rt: &impl Abort, mut board: Board<D>) -> D {
    is_outcome(rt, board.checkpoint(), Err(CallFault::Disk { place: 0 }));
    for _ in 0..2u32 {
        let _end = board.checkpoint();
    }
    is_kept(rt, board.kept_in(), kept(Area::B, 2, 0));
    disk_in(board)
}

// The board is in the new area, with all that was done.
fn is_made_there(rt: &impl Abort, alloc: Global, found: &Opened) -> Result<(), Fail> {
    is_kept(rt, found.kept, kept(Area::B, 2, 0));
    is_number(rt, found.rows.next, 10);
    are_named(rt, alloc, &found.rows, b"web")
}

fn fails_at_first(rt: &impl Abort, alloc: Global, failing: &[u64]) -> Result<(), Fail> {
    let board = loaded(alloc, disk_of(alloc, &BEFORE, b"", failing)?)?;
    let disk = is_made(rt, board);
    let found = found(alloc, copy_of(alloc, &disk)?)?;
    is_made_there(rt, alloc, &found)
}

#[test]
fn a_checkpoint_that_failed_may_be_made_again(rt: HostRuntime) -> Result<(), Fail> {
    let alloc = rt.alloc();
    for call in CALLS + 1..CALLS + 9 {
        fails_at_first(&rt, alloc, &[call])?;
        fails_at_first(&rt, alloc, &[call, call + 1])?;
    }
    Ok(())
}

fn fails_in_a_call(
    rt: &impl Abort,
    alloc: Global,
    area: &[u8],
    failing: &[u64],
) -> Result<(), Fail> {
    let doubt = desire(b'm', 1)?;
    let offers = offers()?;
    let board = loaded(alloc, disk_of(alloc, area, b"", failing)?)?;
    let (mut disk, done) = doubts(rt, board, doubt, &offers);
    leaves(rt, alloc, &mut disk, Area::B, &[done, b'w'])
}

#[test]
fn a_call_whose_checkpoint_failed_is_a_doubt_that_is_gone(rt: HostRuntime) -> Result<(), Fail> {
    let alloc = rt.alloc();
    let area = area_with(&rt, alloc, 4096)?;
    // The other gate is closed in calls 9 and 10, what stands behind it is written in 11 to 14, and
    // it is opened in 15 and 16. The frame is written in 17, and its gate in 19.
    for call in FULL_CALLS + 1..FULL_CALLS + 13 {
        fails_in_a_call(&rt, alloc, &area, &[call])?;
        fails_in_a_call(&rt, alloc, &area, &[call, call + 1])?;
    }
    // The gate was written, and closing it again fails at the sync.
    fails_in_a_call(&rt, alloc, &area, &[15, 17])?;
    fails_in_a_call(&rt, alloc, &area, &[16, 18])
}
