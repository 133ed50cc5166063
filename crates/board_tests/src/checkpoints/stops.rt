//! A stop within each device call of a checkpoint.
use super::back::gone_back;
use super::heads::BEFORE;
use super::life::{FULL_CALLS, area_with, lived};
use super::{CALLS, checkpointed};
use crate::asserts::{holds, is_kept_at, is_number, is_number_at};
use crate::making::{Opened, copy_of, disk_of, found, found_in, kept, loaded};
use bbs_model::Rows;
use disk_trait::{Area, Disk, MemoryDisk, Torn};
use std::alloc::Global;
use std::process::Abort;
use std::test::Fail;

/// What is found after a stop within that call.
pub fn left(
    rt: &impl Abort,
    alloc: Global,
    disk: &MemoryDisk,
    call: u64,
    torn: Torn,
) -> Result<Opened, Fail> {
    holds(rt, call <= disk.clock());
    let (a, b) = disk.image(alloc, call, torn)?;
    found_in(alloc, &a, &b)
}

fn are_equal(rt: &impl Abort, rows: &Rows, others: &Rows) {
    holds(rt, rows.desired.items() == others.desired.items());
    holds(rt, rows.actual.items() == others.actual.items());
    holds(rt, rows.tasks.items() == others.tasks.items());
    holds(rt, rows.cells.items() == others.cells.items());
    is_number(rt, rows.next, others.next);
}

// After a stop at which so many calls were left.
fn is_area_at(rt: &impl Abort, left_over: u64, got: Area, wanted: Area) {
    assert_eq!(rt; got, wanted, "{left_over} calls were left");
}

pub const TORN: [Torn; 3] = [Torn::Old, Torn::New, Torn::Byte(7)];

// The call within which a stop was, how many were left then, and what was torn.
type Stop = (u64, u64, Torn);

// What a stop leaves has these rows, in the new area where that is open.
fn has_rows(
    rt: &impl Abort,
    left: &Opened,
    (_call, left_over, torn): Stop,
    (old, new): (Area, Area),
    rows: &Rows,
) {
    // The last two calls open the new one.
    let is_open = left_over < 2 && !matches!(torn, Torn::Old);
    let area = if is_open { new } else { old };
    is_area_at(rt, left_over, left.kept.area, area);
    are_equal(rt, &left.rows, rows);
}

fn leaves_rows(
    rt: &impl Abort,
    alloc: Global,
    disk: &MemoryDisk,
    stop: Stop,
    areas: (Area, Area),
    rows: &Rows,
) -> Result<(), Fail> {
    let left = left(rt, alloc, disk, stop.0, stop.2)?;
    has_rows(rt, &left, stop, areas, rows);
    Ok(())
}

// A stop within each of the last so many calls leaves these rows in one of the areas.
fn leaves(
    rt: &impl Abort,
    alloc: Global,
    disk: &MemoryDisk,
    calls: u64,
    areas: (Area, Area),
    rows: &Rows,
) -> Result<(), Fail> {
    let end = disk.clock();
    for left_over in 0..calls {
        for torn in TORN {
            let call = end.saturating_sub(left_over);
            leaves_rows(rt, alloc, disk, (call, left_over, torn), areas, rows)?;
        }
    }
    Ok(())
}

fn takes_calls(rt: &impl Abort, disk: &MemoryDisk, calls: u64) {
    is_number(rt, disk.clock(), CALLS.saturating_add(calls));
}

// A checkpoint beside such an area B makes so many calls, and a stop within each leaves its rows.
fn leaves_beside(
    rt: &impl Abort,
    alloc: Global,
    other: &[u8],
    calls: u64,
    rows: &Rows,
) -> Result<(), Fail> {
    let board = loaded(alloc, disk_of(alloc, &BEFORE, other, &[])?)?;
    let disk = checkpointed(rt, board);
    takes_calls(rt, &disk, calls);
    leaves(rt, alloc, &disk, calls, (Area::A, Area::B), rows)
}

fn leaves_beside_each(rt: &impl Abort, alloc: Global, rows: &Rows) -> Result<(), Fail> {
    leaves_beside(rt, alloc, b"", 8, rows)?;
    // An area of one byte is none, whatever that byte is.
    leaves_beside(rt, alloc, b"\x07", 8, rows)?;
    // A closed gate isn't written again, so that nothing may open what stands behind it.
    leaves_beside(rt, alloc, b"\x00", 6, rows)?;
    let mut closed = BEFORE;
    closed[0] = 0;
    leaves_beside(rt, alloc, &closed, 6, rows)
}

#[test]
fn a_stop_in_a_checkpoint_leaves_the_rows_in_one_area(rt: HostRuntime) -> Result<(), Fail> {
    let alloc = rt.alloc();
    let before = found_in(alloc, &BEFORE, b"")?;
    leaves_beside_each(&rt, alloc, &before.rows)
}

// The gate of the area that was left stands open, before the header of the generation before.
fn leaves_back(
    rt: &impl Abort,
    alloc: Global,
    disk: &MemoryDisk,
    after: &Opened,
) -> Result<(), Fail> {
    is_number(rt, after.rows.next, 11);
    leaves(rt, alloc, disk, 8, (Area::B, Area::A), &after.rows)
}

fn stop_back(rt: &impl Abort, alloc: Global, disk: &MemoryDisk) -> Result<(), Fail> {
    let after = found(alloc, copy_of(alloc, disk)?)?;
    leaves_back(rt, alloc, disk, &after)
}

#[test]
fn a_stop_in_a_checkpoint_back_leaves_the_rows_in_one_area(rt: HostRuntime) -> Result<(), Fail> {
    let alloc = rt.alloc();
    let old = area_with(&rt, alloc, 10)?;
    let disk = gone_back(&rt, alloc, &old)?;
    stop_back(&rt, alloc, &disk)
}

// Where a stop within that call leaves the board, and after how many transitions. The checkpoint is made in
// calls 9 to 16, of which the last two open the new area, and the frame is stored in calls 17 to 20.
fn is_left_there(rt: &impl Abort, left: &Opened, call: u64, torn: Torn) {
    let is_old = matches!(torn, Torn::Old);
    let (place, next) = if call < 15 || call < 17 && is_old {
        (kept(Area::A, 1, 4096), 4096)
    } else if call < 19 || is_old {
        (kept(Area::B, 2, 0), 4096)
    } else {
        (kept(Area::B, 2, 1), 4097)
    };
    is_kept_at(rt, call, left.kept, place);
    is_number_at(rt, call, left.rows.next, next);
}

fn leaves_one(rt: &impl Abort, alloc: Global, disk: &MemoryDisk) -> Result<(), Fail> {
    is_number(rt, disk.clock(), FULL_CALLS + 12);
    for call in 9..21u64 {
        for torn in TORN {
            let left = left(rt, alloc, disk, call, torn)?;
            is_left_there(rt, &left, call, torn);
        }
    }
    Ok(())
}

#[test]
fn a_stop_in_a_call_that_makes_a_checkpoint_leaves_one_board(rt: HostRuntime) -> Result<(), Fail> {
    let alloc = rt.alloc();
    let area = area_with(&rt, alloc, 4096)?;
    let disk = lived(&rt, alloc, &area, &[(4097, kept(Area::B, 2, 1))])?;
    leaves_one(&rt, alloc, &disk)
}
