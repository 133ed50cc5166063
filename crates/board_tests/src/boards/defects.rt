//! Where the first defect of an area is told.
use crate::asserts::are_bytes;
use crate::bytes::{EMPTY, OLD_EMPTY, OLD_STORED, STORED, changed};
use crate::making::disk_of;
use bbs_board::{LoadFault, load_from_memory};
use disk_trait::{Area, MemoryDisk};
use std::alloc::Global;
use std::process::Abort;
use std::test::Fail;

/// The disk of a load that was refused, and why.
pub type Refused = Option<(MemoryDisk, LoadFault)>;

pub fn refused_load(alloc: Global, disk: MemoryDisk) -> Refused {
    load_from_memory(alloc, disk).err()
}

// The fault of a load that must be refused, and has left these areas.
fn fault_in(rt: &impl Abort, refused: &Refused, a: &[u8], b: &[u8]) -> Result<LoadFault, Fail> {
    let (disk, fault) = refused.as_ref().ok_or("there is a board")?;
    are_bytes(rt, disk.bytes(Area::A), a);
    are_bytes(rt, disk.bytes(Area::B), b);
    Ok(*fault)
}

/// The fault of a load of these areas, which must stay as they are.
pub fn fault_of(rt: &impl Abort, alloc: Global, a: &[u8], b: &[u8]) -> Result<LoadFault, Fail> {
    let refused = refused_load(alloc, disk_of(alloc, a, b, &[])?);
    fault_in(rt, &refused, a, b)
}

fn is_fault(rt: &impl Abort, got: LoadFault, wanted: LoadFault) {
    assert_eq!(rt; got, wanted);
}

/// Loads area A, whose first defect must stand at this place.
pub fn is_damaged(rt: &impl Abort, alloc: Global, a: &[u8], at: u64) -> Result<(), Fail> {
    let area = Area::A;
    is_fault(
        rt,
        fault_of(rt, alloc, a, b"")?,
        LoadFault::Damaged { area, at },
    );
    Ok(())
}

// The frame of the desire twice, so that the second isn't legal, and this behind it.
fn stored_twice(alloc: Global, behind: &[u8]) -> Result<Vec<u8>, Fail> {
    let mut twice = STORED[..84].to_vec(alloc)?;
    twice.extend_from_slice(&STORED[51..84])?;
    twice.extend_from_slice(behind)?;
    Ok(twice)
}

#[test]
fn a_payload_that_is_no_command_is_damaged_at_its_gate(rt: HostRuntime) -> Result<(), Fail> {
    let alloc = rt.alloc();
    let cases: [(usize, u8); 5] = [
        // Kinds that there aren't, and a name that is none.
        (54, 0),
        (54, 30),
        (60, b' '),
        // A Join without its last byte, and an Undesire with bytes behind it.
        (54, 22),
        (54, 3),
    ];
    for (place, value) in cases {
        let bytes = changed(alloc, &STORED, place, value)?;
        is_damaged(&rt, alloc, &bytes, 51)?;
    }
    Ok(())
}

#[test]
fn a_command_that_is_not_legal_there_is_damaged_at_its_gate(rt: HostRuntime) -> Result<(), Fail> {
    let alloc = rt.alloc();
    is_damaged(&rt, alloc, &stored_twice(alloc, b"\0")?, 84)?;
    // It stands in front of a frame that isn't whole.
    is_damaged(&rt, alloc, &stored_twice(alloc, b"\x01\x00")?, 84)?;
    // 1,027 instances of a process.
    is_damaged(&rt, alloc, &changed(alloc, &STORED, 70, 4)?, 51)
}

#[test]
fn a_defect_behind_the_frames_is_told_at_its_place(rt: HostRuntime) -> Result<(), Fail> {
    let alloc = rt.alloc();
    // No gate, a frame that isn't whole, and one of no bytes.
    is_damaged(&rt, alloc, &EMPTY[..51], 51)?;
    is_damaged(&rt, alloc, &STORED[..83], 51)?;
    is_damaged(&rt, alloc, &changed(alloc, &STORED, 53, 0)?, 51)?;
    is_damaged(&rt, alloc, &STORED[..84], 84)?;
    is_damaged(&rt, alloc, &changed(alloc, &STORED, 84, 1)?, 84)
}

#[test]
fn what_the_journal_refuses_is_told_first(rt: HostRuntime) -> Result<(), Fail> {
    let alloc = rt.alloc();
    let (a, b) = (Area::A, Area::B);
    let none = LoadFault::NotABoard { area: a };
    is_fault(&rt, fault_of(&rt, alloc, b"", b"")?, none);
    let other = LoadFault::NotABoard { area: b };
    is_fault(&rt, fault_of(&rt, alloc, &STORED, b"\x01D")?, other);
    let both = LoadFault::Damaged { area: b, at: 11 };
    is_fault(&rt, fault_of(&rt, alloc, &STORED, &EMPTY)?, both);
    // A generation above the transitions of the head and the version, and an area that is shorter than its head.
    is_damaged(&rt, alloc, &changed(alloc, &STORED, 18, 3)?, 11)?;
    is_damaged(&rt, alloc, &changed(alloc, &OLD_STORED, 18, 2)?, 11)?;
    is_damaged(&rt, alloc, &EMPTY[..50], 50)?;
    is_damaged(&rt, alloc, &OLD_EMPTY[..46], 46)
}
