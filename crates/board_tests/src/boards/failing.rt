//! A disk that fails, and a board that goes on.
use super::calls::{are_items, has_logged};
use super::defects::{Refused, refused_load};
use super::{CALLS, Step, desire, desire_of, done, play};
use crate::asserts::{are_bytes, holds, is_number};
use crate::bytes::EMPTY;
use crate::making::{disk_of, found_in, loaded, names_of};
use bbs_board::{Board, Closed, LoadFault};
use bbs_model::{CallFault, Command, Item, Op};
use disk_trait::{Area, Disk, MemoryDisk, Torn};
use std::alloc::Global;
use std::process::Abort;
use std::test::Fail;

// The load has failed in that call, and the disk has the bytes that it had.
fn has_failed(rt: &impl Abort, refused: &Refused, call: u64) -> Result<(), Fail> {
    let (disk, fault) = refused.as_ref().ok_or("there is a board")?;
    holds(rt, *fault == LoadFault::Disk);
    is_number(rt, disk.clock(), call);
    are_bytes(rt, disk.bytes(Area::A), &EMPTY);
    Ok(())
}

fn fails_to_load(rt: &impl Abort, alloc: Global, call: u64) -> Result<(), Fail> {
    let refused = refused_load(alloc, disk_of(alloc, &EMPTY, b"", &[call])?);
    has_failed(rt, &refused, call)
}

#[test]
fn a_disk_that_fails_in_a_load_is_told_and_keeps_its_bytes(rt: HostRuntime) -> Result<(), Fail> {
    for call in 1..CALLS + 1 {
        fails_to_load(&rt, rt.alloc(), call)?;
    }
    Ok(())
}

// The desire, whose disk fails.
fn failed() -> Result<Step, Fail> {
    Ok(Step {
        by: 1,
        command: desire()?,
        end: Err(CallFault::Disk { place: 0 }),
    })
}

#[test]
fn a_call_whose_disk_fails_is_a_doubt_and_the_rows_stay(rt: HostRuntime) -> Result<(), Fail> {
    let alloc = rt.alloc();
    let command = desire()?;
    let items = [Item::Doubt(1, command), Item::Done(2, command)];
    // The same desire is legal still, and is the first transition.
    let again = Step {
        by: 2,
        command,
        end: done(1, 0),
    };
    let steps = [failed()?, again];
    // The append takes four calls, and two more close its gate where one of the last two fails.
    for (call, mark, later) in [(8, 8, 12), (9, 9, 13), (10, 12, 16), (11, 13, 17)] {
        let disk = disk_of(alloc, &EMPTY, b"", &[call])?;
        let (_disk, log, marks) = play(&rt, alloc, disk, &steps)?;
        has_logged(&rt, &log, &items, &marks, &[mark, later]);
    }
    Ok(())
}

// The clock of the disk on which these calls failed, and the gate that the next process reads. Where it is
// open, the desire is found.
fn has_gate(
    rt: &impl Abort,
    alloc: Global,
    disk: &MemoryDisk,
    (_failing, clock, gate): (&[u64], u64, u8),
) -> Result<(), Fail> {
    is_number(rt, disk.clock(), clock);
    holds(rt, disk.bytes(Area::A).get(51) == Some(&gate));
    let names = desired_in(alloc, disk.bytes(Area::A), disk.bytes(Area::B))?;
    holds(rt, names.is_empty() == (gate == 0));
    Ok(())
}

// The desire, of which these device calls fail.
fn gate_fails(rt: &impl Abort, alloc: Global, row: (&[u64], u64, u8)) -> Result<(), Fail> {
    let steps = [failed()?];
    let items = [Item::Doubt(1, desire()?)];
    let disk = disk_of(alloc, &EMPTY, b"", row.0)?;
    let (disk, log, _marks) = play(rt, alloc, disk, &steps)?;
    are_items(rt, &log, &items);
    has_gate(rt, alloc, &disk, row)
}

#[test]
fn a_gate_that_failed_is_closed_in_the_same_call(rt: HostRuntime) -> Result<(), Fail> {
    // Which calls fail, the clock then, and the gate that the next process reads. The gate is written in
    // call 10 and synced in 11; two calls close it. Where the second sync fails too, its 0 is read.
    let table: [(&[u64], u64, u8); 6] = [
        (&[10], 12, 0),
        (&[11], 13, 0),
        (&[10, 11], 11, 0),
        (&[10, 12], 12, 0),
        (&[11, 12], 12, 1),
        (&[11, 13], 13, 0),
    ];
    for row in table {
        gate_fails(&rt, rt.alloc(), row)?;
    }
    Ok(())
}

fn has_two(rt: &impl Abort, alloc: Global, disk: &MemoryDisk) -> Result<(), Fail> {
    let names = desired_in(alloc, disk.bytes(Area::A), disk.bytes(Area::B))?;
    are_bytes(rt, &names, b"two");
    Ok(())
}

#[test]
fn a_doubt_is_gone_once_another_call_is_acknowledged(rt: HostRuntime) -> Result<(), Fail> {
    let alloc = rt.alloc();
    let two = Step {
        by: 1,
        command: desire_of(b"two")?,
        end: done(1, 0),
    };
    let steps = [failed()?, two];
    // The last sync of the first call fails.
    let disk = disk_of(alloc, &EMPTY, b"", &[CALLS + 4])?;
    let (disk, _log, _marks) = play(&rt, alloc, disk, &steps)?;
    has_two(&rt, alloc, &disk)
}

fn call_each<D: Disk>(board: &mut Board<D>, commands: &[Command]) {
    for command in commands {
        let _end = board.call(1, *command);
    }
}

// The disk of a board that began without rows, and the board's log. Three processes are desired once, and a
// fourth until that is acknowledged.
fn offered<D: Disk + Drop>(alloc: Global, disk: D) -> Result<(D, Vec<Item>), Fail> {
    let fourth = desire_of(b"d")?;
    let commands = [
        desire_of(b"a")?,
        desire_of(b"b")?,
        desire_of(b"c")?,
        fourth,
        fourth,
        fourth,
    ];
    let mut board = loaded(alloc, disk)?;
    call_each(&mut board, &commands);
    let Closed {
        disk,
        log,
        marks: _,
    } = board.close();
    Ok((disk, log))
}

// The names of the processes whose desires a log has as done.
fn done_in(alloc: Global, log: &[Item]) -> Result<Vec<u8>, Fail> {
    let mut names = Vec::new(alloc);
    for item in log {
        if let Item::Done(
            _,
            Command {
                op: Op::Desire { desired },
                ..
            },
        ) = item
        {
            names.extend_from_slice(desired.process.bytes())?;
        }
    }
    Ok(names)
}

// The names of the processes that the board of these areas desires.
fn desired_in(alloc: Global, a: &[u8], b: &[u8]) -> Result<Vec<u8>, Fail> {
    let found = found_in(alloc, a, b)?;
    names_of(alloc, &found.rows)
}

// A stop behind these calls leaves each process whose desire was acknowledged, and no other.
fn leaves(rt: &impl Abort, alloc: Global, disk: &mut MemoryDisk, log: &[Item]) -> Result<(), Fail> {
    let done = done_in(alloc, log)?;
    holds(rt, done.ends_with(b"d"));
    let end = disk.clock();
    // A stop within the next call is one after the last.
    holds(rt, disk.sync(Area::B).is_ok());
    for torn in [Torn::Old, Torn::New, Torn::Byte(7)] {
        leaves_desired(rt, alloc, disk, (end.saturating_add(1), torn), &done)?;
    }
    Ok(())
}

fn leaves_desired(
    rt: &impl Abort,
    alloc: Global,
    disk: &MemoryDisk,
    (call, torn): (u64, Torn),
    names: &[u8],
) -> Result<(), Fail> {
    holds(rt, call <= disk.clock());
    let (a, b) = disk.image(alloc, call, torn)?;
    let desired = desired_in(alloc, &a, &b)?;
    are_bytes(rt, &desired, names);
    Ok(())
}

fn stop_after_four(rt: &impl Abort, alloc: Global, failing: &[u64]) -> Result<(), Fail> {
    let (mut disk, log) = offered(alloc, disk_of(alloc, &EMPTY, b"", failing)?)?;
    leaves(rt, alloc, &mut disk, &log)
}

#[test]
fn a_stop_leaves_what_was_acknowledged_and_no_doubt(rt: HostRuntime) -> Result<(), Fail> {
    let alloc = rt.alloc();
    for call in CALLS + 1..CALLS + 13 {
        stop_after_four(&rt, alloc, &[call])?;
        stop_after_four(&rt, alloc, &[call, call + 1])?;
        stop_after_four(&rt, alloc, &[call, call + 2])?;
    }
    Ok(())
}
