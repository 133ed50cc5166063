//! A stop in each device call of three calls that nothing disturbs.
use crate::asserts::{are_bytes_at, holds, holds_at, is_number, is_number_at};
use crate::making::{TORN, desire, disk_in, does_each, found_in, loaded};
use bbs_model::Rows;
use disk_trait::{Disk, MemoryDisk, Torn};
use run_trials::{EMPTY, disk_of};
use std::alloc::Global;
use std::process::Abort;
use std::test::Fail;

// The device call within which a stop comes, and how many processes are found for each of these.
type Line = (u64, [u64; 4]);

// The disk of an empty board on which three processes were desired, one after the other.
fn stored_thrice(rt: &impl Abort, alloc: Global) -> Result<MemoryDisk, Fail> {
    let commands = [desire(b"web", 1)?, desire(b"two", 1)?, desire(b"three", 1)?];
    let mut board = loaded(alloc, disk_of(alloc, EMPTY, b"", &[])?)?;
    let are_done = does_each(&mut board, &commands);
    let disk = disk_in(board);
    holds(rt, are_done);
    Ok(disk)
}

// The names of the processes that are wanted after so many of the calls, in their order.
fn names_after(count: u64) -> &'static [u8] {
    match count {
        0 => b"",
        1 => b"web",
        2 => b"twoweb",
        _ => b"threetwoweb",
    }
}

fn has_names(
    rt: &impl Abort,
    alloc: Global,
    call: u64,
    rows: &Rows,
    count: u64,
) -> Result<(), Fail> {
    let mut names = Vec::new(alloc);
    for row in rows.desired.items() {
        names.extend_from_slice(row.process.bytes())?;
    }
    are_bytes_at(rt, call, &names, names_after(count));
    is_number_at(rt, call, rows.next, count);
    Ok(())
}

fn finds(
    rt: &impl Abort,
    alloc: Global,
    call: u64,
    (a, b): (&[u8], &[u8]),
    count: u64,
) -> Result<(), Fail> {
    holds_at(rt, call, b.is_empty());
    let rows = found_in(alloc, a, b)?;
    has_names(rt, alloc, call, &rows, count)
}

// A stop in that call leaves so many processes.
fn leaves(
    rt: &impl Abort,
    alloc: Global,
    disk: &MemoryDisk,
    (call, torn, count): (u64, Torn, u64),
) -> Result<(), Fail> {
    holds(rt, call <= disk.clock());
    let (a, b) = disk.image(alloc, call, torn)?;
    finds(rt, alloc, call, (&a, &b), count)
}

fn leaves_each(rt: &impl Abort, alloc: Global, disk: &MemoryDisk, line: &Line) -> Result<(), Fail> {
    let (call, counts) = *line;
    for (torn, count) in TORN.iter().zip(counts.iter()) {
        leaves(rt, alloc, disk, (call, *torn, *count))?;
    }
    Ok(())
}

fn leaves_as_told(
    rt: &impl Abort,
    alloc: Global,
    disk: &MemoryDisk,
    lines: &[Line],
) -> Result<(), Fail> {
    is_number(rt, disk.clock(), 19);
    for line in lines {
        leaves_each(rt, alloc, disk, line)?;
    }
    Ok(())
}

#[test]
fn a_stop_in_one_of_three_calls_leaves_those_before_it_and_it_whole_or_not_at_all(
    rt: HostRuntime,
) -> Result<(), Fail> {
    // The load makes 7 device calls. Each call writes its frame behind the closed gate and syncs it, opens the gate
    // and syncs that.
    let lines: [Line; 12] = [
        (8, [0, 0, 0, 0]),
        (9, [0, 0, 0, 0]),
        (10, [0, 1, 0, 1]),
        (11, [0, 1, 0, 1]),
        (12, [1, 1, 1, 1]),
        (13, [1, 1, 1, 1]),
        (14, [1, 2, 1, 2]),
        (15, [1, 2, 1, 2]),
        (16, [2, 2, 2, 2]),
        (17, [2, 2, 2, 2]),
        (18, [2, 3, 2, 3]),
        (19, [2, 3, 2, 3]),
    ];
    let disk = stored_thrice(&rt, rt.alloc())?;
    leaves_as_told(&rt, rt.alloc(), &disk, &lines)
}
