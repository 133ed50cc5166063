//! Areas of the first version of the format, beside those of the second, and areas of no version that is read.
ghost use Rattle.std.specs.Prelude.{◌≡◌, ◌≤◌, false, IfOk};

use super::switching::switch;
use super::{CALLS, DESIRED, EMPTY, MOST, disk_of, fault_of, journal_on};
use crate::asserts::{are_bytes, holds, is_number};
use bbs_journal::{LoadFault, load_from_memory};
use disk_trait::{Area, Disk, MemoryDisk, Torn};
use std::alloc::Global;
use std::process::Abort;
use std::test::Fail;

/// A board without rows, as version 1 prepared it: 47 bytes and a closed gate.
pub const OLD_EMPTY: [u8; 48] = [
    0x01, 0x44, 0x49, 0x45, 0x47, 0x4f, 0x42, 0x42, 0x53, 0, 1, 0, 0, 0, 0, 0, 0, 0, 1, 0, 0, 0,
    0x18, 0, 0, 0, 0, 0, 0, 0, 0, 0, 0, 0, 0, 0, 0, 0, 0, 0, 0, 0, 0, 0, 0, 0, 0, 0,
];

/// The same with the frame of one desire.
pub const OLD_DESIRED: [u8; 81] = [
    0x01, 0x44, 0x49, 0x45, 0x47, 0x4f, 0x42, 0x42, 0x53, 0, 1, 0, 0, 0, 0, 0, 0, 0, 1, 0, 0, 0,
    0x18, 0, 0, 0, 0, 0, 0, 0, 0, 0, 0, 0, 0, 0, 0, 0, 0, 0, 0, 0, 0, 0, 0, 0, 0, 0x01, 0, 0x1e,
    0x01, 0, 0, 0, 0, 0x03, 0x77, 0x65, 0x62, 0x04, 0x61, 0x70, 0x70, 0x73, 0, 0, 0, 3, 0, 0, 0,
    0x40, 0, 0, 0, 0x80, 0, 0, 0x1f, 0x90, 0,
];

// The area that is read, its version, and how many frames it has.
type Read = Result<(Area, u16, usize), LoadFault>;

fn is_read(rt: &impl Abort, row: u64, got: Read, wanted: Read) {
    assert_eq!(rt; got, wanted, "at {row}");
}

fn read(alloc: Global, a: &[u8], b: &[u8]) -> Result<Read, Fail> {
    match load_from_memory(alloc, disk_of(alloc, a, b, &[])?, MOST) {
        Ok(loaded) => Ok(Ok((loaded.journal.area(), loaded.version, loaded.frames.len()))),
        Err((_, why)) => Ok(Err(fault_of(why))),
    }
}

#[test]
fn areas_of_both_versions_are_opened(rt: HostRuntime) -> Result<(), Fail> {
    let alloc = rt.alloc();
    let table: [(&[u8], &[u8], Read); 6] = [
        (&OLD_EMPTY, &[], Ok((Area::A, 1, 0))),
        (&OLD_DESIRED, &[], Ok((Area::A, 1, 1))),
        (&[], &OLD_DESIRED, Ok((Area::B, 1, 1))),
        (&EMPTY, &[], Ok((Area::A, 2, 0))),
        (&DESIRED, &[0], Ok((Area::A, 2, 1))),
        (&[9], &DESIRED, Ok((Area::B, 2, 1))),
    ];
    for (row, (a, b, want)) in table.iter().enumerate() {
        is_read(&rt, row as u64, read(alloc, a, b)?, *want);
    }
    Ok(())
}

#[test]
fn of_two_versions_the_newer_generation_is_read(rt: HostRuntime) -> Result<(), Fail> {
    let alloc = rt.alloc();
    let mut second = EMPTY;
    second[18] = 2;
    let mut old_second = OLD_EMPTY;
    old_second[18] = 2;
    old_second[30] = 1;
    let same = LoadFault::Damaged {
        area: Area::B,
        at: 11,
    };
    let table: [(&[u8], &[u8], Read); 6] = [
        (&OLD_DESIRED, &second, Ok((Area::B, 2, 0))),
        (&second, &OLD_DESIRED, Ok((Area::A, 2, 0))),
        (&DESIRED, &old_second, Ok((Area::B, 1, 0))),
        (&old_second, &DESIRED, Ok((Area::A, 1, 0))),
        (&OLD_DESIRED, &DESIRED, Err(same)),
        (&DESIRED, &OLD_EMPTY, Err(same)),
    ];
    for (row, (a, b, want)) in table.iter().enumerate() {
        is_read(&rt, row as u64, read(alloc, a, b)?, *want);
    }
    Ok(())
}

// No area of such a version is a board, alone or beside one.
fn is_no_board(rt: &impl Abort, alloc: Global, version: u16) -> Result<(), Fail> {
    let mut area = DESIRED;
    area[9..11].copy_from_slice(&version.to_be_bytes());
    let in_a = Err(LoadFault::NotABoard { area: Area::A });
    let in_b = Err(LoadFault::NotABoard { area: Area::B });
    let row = version as u64;
    is_read(rt, row, read(alloc, &area, &[])?, in_a);
    is_read(rt, row, read(alloc, &[], &area)?, in_b);
    is_read(rt, row, read(alloc, &area, &OLD_EMPTY)?, in_a);
    is_read(rt, row, read(alloc, &EMPTY, &area)?, in_b);
    is_read(rt, row, read(alloc, &area, &area)?, in_a);
    Ok(())
}

#[test]
fn an_area_of_another_version_is_not_a_board(rt: HostRuntime) -> Result<(), Fail> {
    for version in [0u16, 3, 256, 257, 258, 512, 65535] {
        is_no_board(&rt, rt.alloc(), version)?;
    }
    Ok(())
}

// The disk of an old area, behind a switch. It is taken to the head of two transitions.
fn moved_on<D: Disk + Drop>(rt: &impl Abort, alloc: Global, disk: D) -> Result<D, Fail> {
    let mut journal = journal_on(rt, alloc, disk)?;
    is_number(rt, journal.version() as u64, 1);
    holds(rt, switch(rt, &mut journal).is_ok());
    is_number(rt, journal.version() as u64, 2);
    is_number(rt, journal.clock(), CALLS + 8);
    Ok(journal.into_disk())
}

fn is_moved_on(rt: &impl Abort, disk: &MemoryDisk) {
    // Generation 2 of version 2, with two transitions and no rows.
    let mut area = EMPTY;
    area[18] = 2;
    area[30] = 2;
    are_bytes(rt, disk.bytes(Area::A), &OLD_DESIRED);
    are_bytes(rt, disk.bytes(Area::B), &area);
}

// What a stop within that call leaves.
fn leaves(
    rt: &impl Abort,
    alloc: Global,
    disk: &MemoryDisk,
    (call, torn): (u64, Torn),
    want: Read,
) -> Result<(), Fail> {
    holds(rt, call <= disk.clock());
    let (a, b) = disk.image(alloc, call, torn)?;
    is_read(rt, call, read(alloc, &a, &b)?, want);
    Ok(())
}

// The old area is read until the header gate of the new one is open.
fn leaves_old_or_new(rt: &impl Abort, alloc: Global, disk: &mut MemoryDisk) -> Result<(), Fail> {
    // A stop within the next call is one after the last.
    holds(rt, disk.sync(Area::A).is_ok());
    let table = [
        (Torn::Old, false),
        (Torn::New, true),
        (Torn::Byte(0), false),
        (Torn::Byte(7), true),
    ];
    for (torn, opens) in table {
        for call in CALLS + 1..CALLS + 10 {
            let gone = call > CALLS + 8 || (opens && call > CALLS + 6);
            let want = if gone {
                Ok((Area::B, 2, 0))
            } else {
                Ok((Area::A, 1, 1))
            };
            leaves(rt, alloc, disk, (call, torn), want)?;
        }
    }
    Ok(())
}

#[test]
fn a_switch_of_an_old_area_writes_the_second_version(rt: HostRuntime) -> Result<(), Fail> {
    let alloc = rt.alloc();
    let mut disk = moved_on(&rt, alloc, disk_of(alloc, &OLD_DESIRED, &[], &[])?)?;
    is_moved_on(&rt, &disk);
    leaves_old_or_new(&rt, alloc, &mut disk)
}
