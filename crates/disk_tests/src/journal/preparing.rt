//! How an empty disk is prepared, and one that isn't empty left alone.
use super::{EMPTY, ONE, disk_of};
use crate::asserts::{are_bytes, holds, is_number};
use bbs_journal::{PrepareFault, prepare};
use disk_trait::{Area, Disk, MemoryDisk};
use std::process::Abort;
use std::test::Fail;

fn is_end(rt: &impl Abort, got: Result<(), PrepareFault>, wanted: Result<(), PrepareFault>) {
    assert_eq!(rt; got, wanted);
}

// The eighth call fails.
fn is_prepared_once(rt: &impl Abort, disk: &mut MemoryDisk) {
    is_end(rt, prepare(disk), Ok(()));
    are_bytes(rt, disk.bytes(Area::A), &EMPTY);
    holds(rt, disk.bytes(Area::B).is_empty());
    is_end(rt, prepare(disk), Err(PrepareFault::NotEmpty));
    is_end(rt, prepare(disk), Err(PrepareFault::Disk));
    is_number(rt, disk.faults(), 1);
}

#[test]
fn two_empty_areas_are_prepared_once(rt: HostRuntime) -> Result<(), Fail> {
    let mut disk = disk_of(rt.alloc(), &[], &[], &[8])?;
    is_prepared_once(&rt, &mut disk);
    Ok(())
}

// The disk fails in that call, and both areas are as they were.
fn writes_none(rt: &impl Abort, disk: &mut MemoryDisk, call: u64, a: &[u8], b: &[u8]) {
    is_end(rt, prepare(disk), Err(PrepareFault::Disk));
    is_number(rt, disk.clock(), call);
    are_bytes(rt, disk.bytes(Area::A), a);
    are_bytes(rt, disk.bytes(Area::B), b);
}

#[test]
fn a_prepare_whose_disk_fails_over_bytes_writes_none(rt: HostRuntime) -> Result<(), Fail> {
    let table: [(&[u8], &[u8]); 3] = [(&EMPTY, &[]), (&[], &ONE), (&ONE, &EMPTY)];
    for (a, b) in table {
        for call in 1..3u64 {
            let mut disk = disk_of(rt.alloc(), a, b, &[call])?;
            writes_none(&rt, &mut disk, call, a, b);
        }
    }
    Ok(())
}

// The disk fails in that call, and so many bytes stand in the first area then.
fn leaves_a_part(rt: &impl Abort, disk: &mut MemoryDisk, call: u64, left: u64) {
    is_end(rt, prepare(disk), Err(PrepareFault::Disk));
    is_number(rt, disk.clock(), call);
    is_number(rt, disk.bytes(Area::A).len() as u64, left);
    holds(rt, disk.bytes(Area::B).is_empty());
}

#[test]
fn a_prepare_whose_disk_fails_over_empty_areas_leaves_a_part(rt: HostRuntime) -> Result<(), Fail> {
    // The lengths, the write, and the two syncs.
    for (call, left) in [(1, 0), (2, 0), (3, 0), (4, 52), (5, 52)] {
        let mut disk = disk_of(rt.alloc(), &[], &[], &[call])?;
        leaves_a_part(&rt, &mut disk, call, left);
    }
    Ok(())
}
