//! A disk that fails, and a locket that goes on.
use crate::asserts::{are_bytes, are_items, are_numbers, holds, is_number, is_number_at};
use crate::bytes::EMPTY;
use crate::making::{CALLS, Step, acquire, disk_of, loaded, play, release, state_in};
use disk_trait::{Area, Disk, MemoryDisk, Torn};
use locket::{LockCommand, LockFault, LockItem, Locket, LocketParts, load_from_memory};
use std::alloc::Global;
use std::process::Abort;
use std::test::Fail;

// The load of a disk that fails in this call, with the disk's clock then.
fn refused(alloc: Global, disk: MemoryDisk) -> Option<MemoryDisk> {
    match load_from_memory(alloc, disk) {
        Ok(_) => None,
        Err((disk, _)) => Some(disk),
    }
}

fn has_failed(rt: &impl Abort, refused: &Option<MemoryDisk>, call: u64) -> Result<(), Fail> {
    let disk = refused.as_ref().ok_or("there is a locket")?;
    is_number(rt, disk.clock(), call);
    are_bytes(rt, disk.bytes(Area::A), &EMPTY);
    Ok(())
}

fn fails_to_load(rt: &impl Abort, alloc: Global, call: u64) -> Result<(), Fail> {
    let refused = refused(alloc, disk_of(alloc, &EMPTY, b"", &[call])?);
    has_failed(rt, &refused, call)
}

#[test]
fn a_disk_that_fails_in_a_load_keeps_its_bytes(rt: HostRuntime) -> Result<(), Fail> {
    for call in 1..CALLS + 1 {
        fails_to_load(&rt, rt.alloc(), call)?;
    }
    Ok(())
}

// The first lease, whose disk fails.
fn failed() -> Result<Step, Fail> {
    Ok(Step {
        command: acquire(0, b"bbs-1", 15)?,
        end: Err(LockFault::Disk),
    })
}

// The clock of the disk on which these calls failed, and the gate that the next process reads. Where it is
// open, the lease is found.
fn has_gate(
    rt: &impl Abort,
    alloc: Global,
    disk: &MemoryDisk,
    (_failing, clock, gate): (&[u64], u64, u8),
) -> Result<(), Fail> {
    is_number(rt, disk.clock(), clock);
    holds(rt, disk.bytes(Area::A).get(51) == Some(&gate));
    let state = state_in(alloc, disk.bytes(Area::A), disk.bytes(Area::B))?;
    is_number_at(rt, clock, state.last, gate as u64);
    Ok(())
}

fn gate_fails(rt: &impl Abort, alloc: Global, row: (&[u64], u64, u8)) -> Result<(), Fail> {
    let steps = [failed()?];
    let items = [LockItem::Doubt(acquire(0, b"bbs-1", 15)?)];
    let disk = disk_of(alloc, &EMPTY, b"", row.0)?;
    let (disk, log, marks) = play(rt, alloc, disk, &steps)?;
    are_items(rt, &log, &items);
    are_numbers(rt, &marks, &[row.1]);
    has_gate(rt, alloc, &disk, row)
}

#[test]
fn a_gate_that_failed_is_closed_in_the_same_call(rt: HostRuntime) -> Result<(), Fail> {
    // Which calls fail, the clock then, and the gate that the next process reads. The body is written in call 8 and
    // synced in 9, the gate written in 10 and synced in 11; two calls close it. Where the second sync fails too, its
    // 0 is read.
    let table: [(&[u64], u64, u8); 10] = [
        (&[8], 8, 0),
        (&[9], 9, 0),
        (&[8, 9], 8, 0),
        (&[9, 10], 9, 0),
        (&[10], 12, 0),
        (&[11], 13, 0),
        (&[10, 11], 11, 0),
        (&[10, 12], 12, 0),
        (&[11, 12], 12, 1),
        (&[11, 13], 13, 0),
    ];
    for row in table {
        gate_fails(&rt, rt.alloc(), row)?;
    }
    Ok(())
}

fn call_each<D: Disk>(locket: &mut Locket<D>, commands: &[LockCommand]) {
    for command in commands {
        let _end = locket.call(*command);
    }
}

// Three leases, each given back at once, and a fourth until that is acknowledged.
fn offered<D: Disk + Drop>(alloc: Global, disk: D) -> Result<(D, Vec<LockItem>), Fail> {
    let last = acquire(9, b"d", 15)?;
    let commands = [
        acquire(0, b"a", 1)?,
        acquire(3, b"b", 1)?,
        release(4, b"b", 2)?,
        last,
        last,
        last,
    ];
    let mut locket = loaded(alloc, disk)?;
    call_each(&mut locket, &commands);
    let LocketParts {
        disk,
        log,
        marks: _,
    } = locket.into_parts();
    Ok((disk, log))
}

fn is_done(item: &LockItem) -> bool {
    matches!(item, LockItem::Done(_))
}

// A stop behind these calls leaves as many changes as were acknowledged.
fn leaves(
    rt: &impl Abort,
    alloc: Global,
    disk: &mut MemoryDisk,
    log: &[LockItem],
) -> Result<(), Fail> {
    let done = log.iter().filter(|item| is_done(item)).count();
    let end = disk.clock();
    // A stop within the next call is one after the last.
    holds(rt, disk.sync(Area::B).is_ok());
    for torn in [Torn::Old, Torn::New, Torn::Byte(7)] {
        leaves_count(rt, alloc, disk, (end.saturating_add(1), torn), done as u64)?;
    }
    Ok(())
}

fn leaves_count(
    rt: &impl Abort,
    alloc: Global,
    disk: &MemoryDisk,
    (call, torn): (u64, Torn),
    done: u64,
) -> Result<(), Fail> {
    holds(rt, call <= disk.clock());
    let (a, b) = disk.image(alloc, call, torn)?;
    let state = state_in(alloc, &a, &b)?;
    is_number_at(rt, call, state.count as u64, done);
    holds(rt, state.held.is_some());
    Ok(())
}

fn stop_after_all(rt: &impl Abort, alloc: Global, failing: &[u64]) -> Result<(), Fail> {
    let (mut disk, log) = offered(alloc, disk_of(alloc, &EMPTY, b"", failing)?)?;
    leaves(rt, alloc, &mut disk, &log)
}

#[test]
fn a_stop_leaves_what_was_acknowledged_and_no_doubt(rt: HostRuntime) -> Result<(), Fail> {
    let alloc = rt.alloc();
    for call in CALLS + 1..CALLS + 13 {
        stop_after_all(&rt, alloc, &[call])?;
        stop_after_all(&rt, alloc, &[call, call + 1])?;
        stop_after_all(&rt, alloc, &[call, call + 2])?;
    }
    Ok(())
}
