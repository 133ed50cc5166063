//! What no clause says of a disk in memory: that only the listed calls fail, and what is read and left then.
use crate::asserts::{are_bytes, are_bytes_at, are_told, holds, is_count, is_number};
use disk_trait::{Area, Disk, MemoryDisk, Torn};
use std::alloc::Global;
use std::process::Abort;
use std::test::Fail;

fn memory(alloc: Global, failing: &[u64]) -> Result<MemoryDisk, Fail> {
    let a = b"ab".to_vec(alloc)?;
    Ok(MemoryDisk::new(alloc, a, Vec::new(alloc), failing.to_vec(alloc)?))
}

// Six device calls, each told by whether it succeeded.
fn six_calls<D: Disk>(disk: &mut D) -> [bool; 6] {
    let mut room = [0u8; 4];
    [
        disk.len(Area::A).is_ok(),
        disk.read_at(Area::A, 1, &mut room).is_ok(),
        disk.sync(Area::A).is_ok(),
        disk.len(Area::B).is_ok(),
        disk.read_at(Area::B, 0, &mut room).is_ok(),
        disk.sync(Area::B).is_ok(),
    ]
}

// Of six calls these succeed, and there are so many faults, none for want of memory.
fn fails(rt: &impl Abort, disk: &mut MemoryDisk, want: &[bool; 6], faults: u64) {
    let got = six_calls(disk);
    are_told(rt, &got, want);
    is_number(rt, disk.faults(), faults);
    is_number(rt, disk.clock(), 6);
    is_number(rt, disk.starved(), 0);
}

#[test]
fn the_listed_calls_fail(rt: HostRuntime) -> Result<(), Fail> {
    let table: [(&[u64], [bool; 6], u64); 4] = [
        (&[], [true, true, true, true, true, true], 0),
        (&[1], [false, true, true, true, true, true], 1),
        (&[6, 3], [true, true, false, true, true, false], 2),
        (&[7, 0], [true, true, true, true, true, true], 0),
    ];
    for (failing, want, faults) in table {
        let mut disk = memory(rt.alloc(), failing)?;
        fails(&rt, &mut disk, &want, faults);
    }
    Ok(())
}

// The third call fails.
fn reads_what_it_writes(rt: &impl Abort, disk: &mut MemoryDisk) {
    holds(rt, disk.write_at(Area::A, 0, b"xyz").is_ok());
    holds(rt, disk.write_at(Area::B, 0, b"q").is_ok());
    holds(rt, disk.write_at(Area::A, 0, b"nothing").is_err());
    are_bytes(rt, disk.bytes(Area::A), b"xyz");
    are_bytes(rt, disk.bytes(Area::B), b"q");
}

fn reads_within_the_area(rt: &impl Abort, disk: &mut MemoryDisk) {
    let mut room = *b"....";
    is_count(rt, disk.read_at(Area::A, 1, &mut room), Ok(2));
    are_bytes(rt, &room, b"yz..");
    is_count(rt, disk.read_at(Area::A, 9, &mut room), Ok(0));
    holds(rt, disk.sync(Area::A).is_ok());
}

#[test]
fn what_is_written_is_read(rt: HostRuntime) -> Result<(), Fail> {
    let mut disk = memory(rt.alloc(), &[3])?;
    reads_what_it_writes(&rt, &mut disk);
    reads_within_the_area(&rt, &mut disk);
    Ok(())
}

fn write_over_what_was_synced(rt: &impl Abort, disk: &mut MemoryDisk) {
    holds(rt, disk.write_at(Area::A, 0, b"xyz").is_ok());
    holds(rt, disk.sync(Area::A).is_ok());
    holds(rt, disk.write_at(Area::A, 0, b"q").is_ok());
}

// A stop within that call leaves these bytes.
fn leaves(
    rt: &impl Abort,
    alloc: Global,
    disk: &MemoryDisk,
    (call, torn, want): (u64, Torn, &[u8]),
) -> Result<(), Fail> {
    holds(rt, call <= disk.clock());
    let (a, b) = disk.image(alloc, call, torn)?;
    are_bytes_at(rt, call, &a, want);
    holds(rt, b.is_empty());
    Ok(())
}

fn is_pending(rt: &impl Abort, alloc: Global, disk: &mut MemoryDisk) -> Result<(), Fail> {
    write_over_what_was_synced(rt, disk);
    let table: [(u64, Torn, &[u8]); 8] = [
        (0, Torn::New, b"ab"),
        (1, Torn::Old, b"ab"),
        (1, Torn::New, b"xyz"),
        (1, Torn::Byte(b'.'), b"..."),
        (2, Torn::Old, b"ab"),
        (2, Torn::Byte(b'.'), b"..."),
        (3, Torn::Old, b"xyz"),
        (3, Torn::Byte(b'.'), b".yz"),
    ];
    for row in table {
        leaves(rt, alloc, disk, row)?;
    }
    Ok(())
}

#[test]
fn a_write_is_pending_until_its_sync(rt: HostRuntime) -> Result<(), Fail> {
    let mut disk = memory(rt.alloc(), &[])?;
    is_pending(&rt, rt.alloc(), &mut disk)
}
