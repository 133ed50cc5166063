//! What no clause says of a journal: its bytes, its device calls, and what a load finds. What owns a journal is
//! written over any disk, and a disk in memory is lent to what looks at it.
ghost use Rattle.std.specs.Prelude.{◌≡◌, false, IfOk};
ghost use Rattle.bbs_journal.specs.Frames.{IsPayload};
ghost use Rattle.bbs_journal.specs.View.{IsCalm};
ghost use Rattle.bbs_journal.specs.declared.waiting.Waiting.TheVariants.{Nothing};

mod failing;
mod generations;
mod opening;
mod preparing;
mod stops;
mod switching;
mod versions;

use crate::asserts::{are_bytes, are_bytes_at, holds, is_number};
use bbs_journal::{Journal, LoadFault, Loaded, NotLoaded, load, load_from_memory};
use disk_trait::{Area, Disk, MemoryDisk, Torn};
use std::alloc::Global;
use std::process::Abort;
use std::test::Fail;

// A board without rows, as it is prepared: 51 bytes and a closed gate.
const EMPTY: [u8; 52] = [
    0x01, 0x44, 0x49, 0x45, 0x47, 0x4f, 0x42, 0x42, 0x53, 0, 2, 0, 0, 0, 0, 0, 0, 0, 1, 0, 0, 0,
    0x1c, 0, 0, 0, 0, 0, 0, 0, 0, 0, 0, 0, 0, 0, 0, 0, 0, 0, 0, 0, 0, 0, 0, 0, 0, 0, 0, 0, 0, 0,
];

// The same with the frame of one desire.
const DESIRED: [u8; 85] = [
    0x01, 0x44, 0x49, 0x45, 0x47, 0x4f, 0x42, 0x42, 0x53, 0, 2, 0, 0, 0, 0, 0, 0, 0, 1, 0, 0, 0,
    0x1c, 0, 0, 0, 0, 0, 0, 0, 0, 0, 0, 0, 0, 0, 0, 0, 0, 0, 0, 0, 0, 0, 0, 0, 0, 0, 0, 0, 0, 0x01,
    0, 0x1e, 0x01, 0, 0, 0, 0, 0x03, 0x77, 0x65, 0x62, 0x04, 0x61, 0x70, 0x70, 0x73, 0, 0, 0, 3, 0,
    0, 0, 0x40, 0, 0, 0, 0x80, 0, 0, 0x1f, 0x90, 0,
];

// The longest head that a load allows for here.
const MOST: u32 = 4_096;

// How many device calls the load of the empty board makes.
const CALLS: u64 = 7;

// Frames of "one" and of "two", behind the 51 bytes.
const ONE: [u8; 7] = [1, 0, 3, 111, 110, 101, 0];

const TWO: [u8; 7] = [1, 0, 3, 116, 119, 111, 0];

// The fault that a load ends with. A head that is too long has none here, and counts as want of memory.
fn fault_of(why: NotLoaded) -> LoadFault {
    match why {
        NotLoaded::Fault(fault) => fault,
        NotLoaded::LongHead(_) => LoadFault::OutOfMemory,
    }
}

/// A disk in memory of these bytes, of which these calls fail.
pub fn disk_of(alloc: Global, a: &[u8], b: &[u8], failing: &[u64]) -> Result<MemoryDisk, Fail> {
    let a = a.to_vec(alloc)?;
    let b = b.to_vec(alloc)?;
    Ok(MemoryDisk::new(alloc, a, b, failing.to_vec(alloc)?))
}

fn empty_disk(alloc: Global, failing: &[u64]) -> Result<MemoryDisk, Fail> {
    disk_of(alloc, &EMPTY, &[], failing)
}

/// The journal of this disk, which has no defect.
pub fn journal_on<D: Disk + Drop>(
    rt: &impl Abort,
    alloc: Global,
    disk: D,
) -> Result<Journal<D>, Fail>
    ensures { IfOk result IsCalm }
{
    match load(alloc, disk, MOST) {
        Ok(loaded) => {
            holds(rt, loaded.broken.is_none());
            Ok(loaded.journal)
        }
        Err((_, why)) => {
            let failed: Result<Journal<D>, LoadFault> = Err(fault_of(why));
            Ok(failed?)
        }
    }
}

// The journal of the empty board on this disk.
fn empty_journal<D: Disk + Drop>(
    rt: &impl Abort,
    alloc: Global,
    disk: D,
) -> Result<Journal<D>, Fail>
    ensures { IfOk result (λ j.
        (j.frames ≡ 0) × (j.waiting ≡ Nothing) × (j.broken ≡ false)) }
{
    let journal = journal_on(rt, alloc, disk)?;
    is_number(rt, journal.frames(), 0);
    is_number(rt, journal.clock(), CALLS);
    Ok(journal)
}

// How many frames are read, and the place of the defect behind them.
type Read = Result<(usize, Option<u64>), LoadFault>;

fn is_opened(rt: &impl Abort, row: u64, got: Read, wanted: Read) {
    assert_eq!(rt; got, wanted, "at {row}");
}

fn opened(alloc: Global, a: &[u8], b: &[u8]) -> Result<Read, Fail> {
    match load_from_memory(alloc, disk_of(alloc, a, b, &[])?, MOST) {
        Ok(loaded) => Ok(Ok((loaded.frames.len(), loaded.broken))),
        Err((_, why)) => Ok(Err(fault_of(why))),
    }
}

// The payloads that were loaded, with a blank behind each. No defect stands behind them.
fn text_of<D: Disk>(rt: &impl Abort, alloc: Global, loaded: &Loaded<D>) -> Result<Vec<u8>, Fail> {
    holds(rt, loaded.broken.is_none());
    let mut text = Vec::new(alloc);
    for frame in &loaded.frames {
        text.extend_from_slice(frame)?;
        text.push(b' ')?;
    }
    Ok(text)
}

fn held_on<D: Disk + Drop>(rt: &impl Abort, alloc: Global, disk: D) -> Result<Vec<u8>, Fail> {
    match load(alloc, disk, MOST) {
        Ok(loaded) => text_of(rt, alloc, &loaded),
        Err((_, why)) => {
            let failed: Result<Vec<u8>, LoadFault> = Err(fault_of(why));
            Ok(failed?)
        }
    }
}

// The text of the payloads that these areas hold.
fn held(rt: &impl Abort, alloc: Global, a: &[u8], b: &[u8]) -> Result<Vec<u8>, Fail> {
    held_on(rt, alloc, disk_of(alloc, a, b, &[])?)
}

// A stop within that call leaves these payloads.
fn leaves(
    rt: &impl Abort,
    alloc: Global,
    disk: &MemoryDisk,
    (call, torn): (u64, Torn),
    want: &[u8],
) -> Result<(), Fail> {
    holds(rt, call <= disk.clock());
    let (a, b) = disk.image(alloc, call, torn)?;
    let text = held(rt, alloc, &a, &b)?;
    are_bytes_at(rt, call, &text, want);
    Ok(())
}

// The disk of the empty board, to which this payload was appended.
fn appended<D: Disk + Drop>(
    rt: &impl Abort,
    alloc: Global,
    disk: D,
    payload: &[u8],
) -> Result<D, Fail>
    requires { IsPayload payload.now }
{
    let mut journal = empty_journal(rt, alloc, disk)?;
    holds(rt, journal.append(payload).is_ok());
    Ok(journal.into_disk())
}

// The same, of a payload of three bytes, by four device calls.
fn appended_three<D: Disk + Drop>(rt: &impl Abort, alloc: Global, disk: D) -> Result<D, Fail> {
    let mut journal = empty_journal(rt, alloc, disk)?;
    holds(rt, journal.append(b"one").is_ok());
    is_number(rt, journal.frames(), 1);
    is_number(rt, journal.end(), 57);
    is_number(rt, journal.clock(), CALLS + 4);
    holds(rt, journal.area() == Area::A);
    is_number(rt, journal.generation(), 1);
    Ok(journal.into_disk())
}

/// An area of these bytes up to a place, and those behind it.
pub fn is_cut(rt: &impl Abort, area: &[u8], place: usize, front: &[u8], rest: &[u8]) {
    let (before, behind) = area.split_at(place.min(area.len()));
    are_bytes(rt, before, front);
    are_bytes(rt, behind, rest);
}

fn has_one_frame(rt: &impl Abort, disk: &MemoryDisk) {
    is_cut(rt, disk.bytes(Area::A), 51, &EMPTY[..51], &ONE);
    holds(rt, disk.bytes(Area::B).is_empty());
}

#[test]
fn a_frame_is_a_gate_a_length_and_a_payload(rt: HostRuntime) -> Result<(), Fail> {
    let alloc = rt.alloc();
    let disk = appended_three(&rt, alloc, empty_disk(alloc, &[])?)?;
    has_one_frame(&rt, &disk);
    Ok(())
}

fn is_desired(rt: &impl Abort, alloc: Global, area: &[u8]) -> Result<(), Fail> {
    are_bytes(rt, area, &DESIRED);
    let mut text = held(rt, alloc, &DESIRED, &[])?;
    holds(rt, text.pop() == Some(b' '));
    are_bytes(rt, &text, &DESIRED[54..84]);
    Ok(())
}

#[test]
fn one_desire_makes_an_area_of_85_bytes(rt: HostRuntime) -> Result<(), Fail> {
    let alloc = rt.alloc();
    let disk = appended(&rt, alloc, empty_disk(alloc, &[])?, &DESIRED[54..84])?;
    is_desired(&rt, alloc, disk.bytes(Area::A))
}

fn has_the_longest(rt: &impl Abort, alloc: Global, area: &[u8]) -> Result<(), Fail> {
    is_number(rt, area.len() as u64, 567);
    holds(rt, area.get(51..55) == Some([1, 2, 0, 7].as_slice()));
    holds(rt, area.ends_with(&[7, 0]));
    is_opened(rt, 0, opened(alloc, area, &[])?, Ok((1, None)));
    Ok(())
}

#[test]
fn the_longest_payload_has_512_bytes(rt: HostRuntime) -> Result<(), Fail> {
    let alloc = rt.alloc();
    let disk = appended(&rt, alloc, empty_disk(alloc, &[])?, &[7u8; 512])?;
    has_the_longest(&rt, alloc, disk.bytes(Area::A))
}
