//! What a stop leaves of a board.
use super::{CALLS, rows_of, stored};
use crate::asserts::{are_bytes, holds, is_number, is_number_at};
use crate::bytes::{EMPTY, STORED};
use crate::making::disk_of;
use disk_trait::{Area, Disk, MemoryDisk, Torn};
use std::alloc::Global;
use std::process::Abort;
use std::test::Fail;

// The disk of an empty board on which the desire was stored.
fn stored_once(rt: &impl Abort, alloc: Global) -> Result<MemoryDisk, Fail> {
    stored(rt, alloc, disk_of(alloc, &EMPTY, b"", &[])?, 1)
}

// A stop in that call leaves a board after so many transitions.
fn leaves(
    rt: &impl Abort,
    alloc: Global,
    disk: &MemoryDisk,
    (call, torn, next): (u64, Torn, u64),
) -> Result<(), Fail> {
    holds(rt, call <= disk.clock());
    let (a, b) = disk.image(alloc, call, torn)?;
    let rows = rows_of(alloc, &a, &b)?;
    is_number_at(rt, call, rows.next, next);
    Ok(())
}

fn leaves_before_or_after(rt: &impl Abort, alloc: Global, disk: &MemoryDisk) -> Result<(), Fail> {
    is_number(rt, disk.clock(), CALLS + 4);
    // The body, its sync, the gate and its sync. A byte of 7 is an open gate, too.
    let cases: [(u64, Torn, u64); 16] = [
        (8, Torn::Old, 0),
        (8, Torn::New, 0),
        (8, Torn::Byte(0), 0),
        (8, Torn::Byte(7), 0),
        (9, Torn::Old, 0),
        (9, Torn::New, 0),
        (9, Torn::Byte(0), 0),
        (9, Torn::Byte(7), 0),
        (10, Torn::Old, 0),
        (10, Torn::New, 1),
        (10, Torn::Byte(0), 0),
        (10, Torn::Byte(7), 1),
        (11, Torn::Old, 0),
        (11, Torn::New, 1),
        (11, Torn::Byte(0), 0),
        (11, Torn::Byte(7), 1),
    ];
    for row in cases {
        leaves(rt, alloc, disk, row)?;
    }
    Ok(())
}

#[test]
fn a_stop_in_a_call_leaves_the_board_before_or_after(rt: HostRuntime) -> Result<(), Fail> {
    let alloc = rt.alloc();
    let disk = stored_once(&rt, alloc)?;
    leaves_before_or_after(&rt, alloc, &disk)
}

fn leaves_what_was_stored(
    rt: &impl Abort,
    alloc: Global,
    disk: &mut MemoryDisk,
) -> Result<(), Fail> {
    is_number(rt, disk.clock(), CALLS + 4);
    // A stop within the next call is one after the last.
    holds(rt, disk.sync(Area::B).is_ok());
    for torn in [Torn::Old, Torn::New, Torn::Byte(0), Torn::Byte(7)] {
        holds(rt, CALLS + 5 <= disk.clock());
        let (a, b) = disk.image(alloc, CALLS + 5, torn)?;
        are_bytes(rt, &a, &STORED);
        holds(rt, b.is_empty());
    }
    Ok(())
}

#[test]
fn a_stop_after_a_call_leaves_the_board_after(rt: HostRuntime) -> Result<(), Fail> {
    let alloc = rt.alloc();
    let mut disk = stored_once(&rt, alloc)?;
    leaves_what_was_stored(&rt, alloc, &mut disk)
}
