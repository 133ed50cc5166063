//! What a stop leaves of a locket.
use crate::asserts::{are_bytes, holds, is_number, is_number_at};
use crate::bytes::{EMPTY, LIVED};
use crate::making::{CALLS, Step, acquire, disk_of, play, state_in};
use diego_names::Name;
use disk_trait::{Area, Disk, MemoryDisk, Torn};
use locket::{Lease, LockReply};
use std::alloc::Global;
use std::process::Abort;
use std::test::Fail;

// The lease of `bbs-1` is given once on this disk.
fn acquired<D: Disk + Drop>(rt: &impl Abort, alloc: Global, disk: D) -> Result<D, Fail> {
    let command = acquire(0, b"bbs-1", 15)?;
    let lease = Lease {
        owner: Name::read(b"bbs-1")?,
        fence: 1,
        until: 15,
    };
    let end = Ok(LockReply::Ok { lease });
    let (disk, _log, _marks) = play(rt, alloc, disk, &[Step { command, end }])?;
    Ok(disk)
}

// A stop in that call leaves a locket after so many changes.
fn leaves(
    rt: &impl Abort,
    alloc: Global,
    disk: &MemoryDisk,
    (call, torn, count): (u64, Torn, u64),
) -> Result<(), Fail> {
    holds(rt, call <= disk.clock());
    let (a, b) = disk.image(alloc, call, torn)?;
    let state = state_in(alloc, &a, &b)?;
    is_number_at(rt, call, state.count as u64, count);
    is_number_at(rt, call, state.last, count);
    Ok(())
}

fn leaves_before_or_after(rt: &impl Abort, alloc: Global, disk: &MemoryDisk) -> Result<(), Fail> {
    is_number(rt, disk.clock(), CALLS + 4);
    // The body, its sync, the gate and its sync. A byte of 7 is an open gate, too.
    let cases: [(u64, Torn, u64); 16] = [
        (8, Torn::Old, 0),
        (8, Torn::New, 0),
        (8, Torn::Byte(0), 0),
        (8, Torn::Byte(7), 0),
        (9, Torn::Old, 0),
        (9, Torn::New, 0),
        (9, Torn::Byte(0), 0),
        (9, Torn::Byte(7), 0),
        (10, Torn::Old, 0),
        (10, Torn::New, 1),
        (10, Torn::Byte(0), 0),
        (10, Torn::Byte(7), 1),
        (11, Torn::Old, 0),
        (11, Torn::New, 1),
        (11, Torn::Byte(0), 0),
        (11, Torn::Byte(7), 1),
    ];
    for row in cases {
        leaves(rt, alloc, disk, row)?;
    }
    Ok(())
}

#[test]
fn a_stop_in_a_call_leaves_the_locket_before_or_after(rt: HostRuntime) -> Result<(), Fail> {
    let alloc = rt.alloc();
    let disk = acquired(&rt, alloc, disk_of(alloc, &EMPTY, b"", &[])?)?;
    leaves_before_or_after(&rt, alloc, &disk)
}

fn leaves_what_was_given(
    rt: &impl Abort,
    alloc: Global,
    disk: &mut MemoryDisk,
) -> Result<(), Fail> {
    is_number(rt, disk.clock(), CALLS + 4);
    // A stop within the next call is one after the last.
    holds(rt, disk.sync(Area::B).is_ok());
    for torn in [Torn::Old, Torn::New, Torn::Byte(0), Torn::Byte(7)] {
        holds(rt, CALLS + 5 <= disk.clock());
        let (a, b) = disk.image(alloc, CALLS + 5, torn)?;
        are_bytes(rt, &a[..69.min(a.len())], &LIVED[..69]);
        holds(rt, b.is_empty());
    }
    Ok(())
}

#[test]
fn a_stop_after_a_call_leaves_the_locket_after(rt: HostRuntime) -> Result<(), Fail> {
    let alloc = rt.alloc();
    let mut disk = acquired(&rt, alloc, disk_of(alloc, &EMPTY, b"", &[])?)?;
    leaves_what_was_given(&rt, alloc, &mut disk)
}
