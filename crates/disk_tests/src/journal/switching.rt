//! The three steps of a switch to the other area.
ghost use Rattle.std.specs.Prelude.{◌≡◌, ◌≤◌, false, IfOk};
ghost use Rattle.bbs_journal.specs.View.{IsCalm};

use super::versions::OLD_EMPTY;
use super::{CALLS, EMPTY, ONE, TWO, disk_of, held, journal_on, leaves};
use crate::asserts::{are_bytes, holds, is_number};
use bbs_journal::{DiskFault, Journal};
use disk_trait::{Area, Disk, MemoryDisk, Torn};
use std::alloc::Global;
use std::process::Abort;
use std::test::Fail;

// The head of a board with two transitions and no rows.
const HEAD: [u8; 28] = [
    0, 0, 0, 0, 0, 0, 0, 2, 0, 0, 0, 0, 0, 0, 0, 0, 0, 0, 0, 0, 0, 0, 0, 0, 0, 0, 0, 0,
];

// What stands before that head in an area of generation 3, its gate closed.
const HEADER: [u8; 23] = [
    0, 0x44, 0x49, 0x45, 0x47, 0x4f, 0x42, 0x42, 0x53, 0, 2, 0, 0, 0, 0, 0, 0, 0, 3, 0, 0, 0, 0x1c,
];

// An area A of generation 2 with one frame, beside these bytes.
fn disk_beside(alloc: Global, beside: &[u8], failing: &[u64]) -> Result<MemoryDisk, Fail> {
    let mut a = EMPTY[..51].to_vec(alloc)?;
    a[18] = 2;
    a[30] = 1;
    a.extend_from_slice(&ONE)?;
    disk_of(alloc, &a, beside, failing)
}

// The journal of such a disk.
fn second_journal<D: Disk + Drop>(
    rt: &impl Abort,
    alloc: Global,
    disk: D,
) -> Result<Journal<D>, Fail>
    ensures { IfOk result IsCalm }
{
    let journal = journal_on(rt, alloc, disk)?;
    is_number(rt, journal.generation(), 2);
    is_number(rt, journal.clock(), CALLS);
    Ok(journal)
}

/// The three steps, to a head that follows on the frame.
pub fn switch<D: Disk>(rt: &impl Abort, journal: &mut Journal<D>) -> Result<(), DiskFault>
    requires { IsCalm journal.old }
    ensures { journal.new.broken ≡ false }
{
    holds(rt, journal.generation() < u64::MAX);
    journal.close_other()?;
    journal.write_other(&HEAD)?;
    journal.open_other()
}

fn switched<D: Disk + Drop>(rt: &impl Abort, alloc: Global, disk: D) -> Result<D, Fail> {
    let mut journal = second_journal(rt, alloc, disk)?;
    holds(rt, switch(rt, &mut journal).is_ok());
    holds(rt, journal.area() == Area::B);
    is_number(rt, journal.generation(), 3);
    is_number(rt, journal.frames(), 0);
    is_number(rt, journal.end(), 51);
    is_number(rt, journal.clock(), CALLS + 8);
    Ok(journal.into_disk())
}

fn is_next_area(rt: &impl Abort, bytes: &[u8]) {
    // The gate is open, and behind the head stands a closed one.
    let mut area = [0; 52];
    area[..23].copy_from_slice(&HEADER);
    area[23..51].copy_from_slice(&HEAD);
    area[0] = 1;
    are_bytes(rt, bytes, &area);
}

#[test]
fn a_switch_writes_an_area_of_the_next_generation(rt: HostRuntime) -> Result<(), Fail> {
    let alloc = rt.alloc();
    let disk = switched(&rt, alloc, disk_beside(alloc, &[9], &[])?)?;
    is_next_area(&rt, disk.bytes(Area::B));
    Ok(())
}

fn switched_with_frame<D: Disk + Drop>(rt: &impl Abort, alloc: Global, disk: D) -> Result<D, Fail> {
    let mut journal = second_journal(rt, alloc, disk)?;
    holds(rt, switch(rt, &mut journal).is_ok());
    holds(rt, !journal.waits());
    is_number(rt, journal.frames(), 0);
    holds(rt, journal.append(b"two").is_ok());
    Ok(journal.into_disk())
}

// A disk in memory holds payloads of this text.
fn has_text(rt: &impl Abort, alloc: Global, disk: &MemoryDisk, want: &[u8]) -> Result<(), Fail> {
    let text = held(rt, alloc, disk.bytes(Area::A), disk.bytes(Area::B))?;
    are_bytes(rt, &text, want);
    Ok(())
}

fn has_the_next_frame(rt: &impl Abort, alloc: Global, disk: &MemoryDisk) -> Result<(), Fail> {
    holds(rt, disk.bytes(Area::B).get(51..) == Some(TWO.as_slice()));
    has_text(rt, alloc, disk, b"two ")
}

#[test]
fn the_next_frame_goes_behind_the_new_head(rt: HostRuntime) -> Result<(), Fail> {
    let alloc = rt.alloc();
    let disk = switched_with_frame(&rt, alloc, disk_beside(alloc, &[], &[])?)?;
    has_the_next_frame(&rt, alloc, &disk)
}

// The disk behind a switch of so many device calls.
fn switched_by<D: Disk + Drop>(
    rt: &impl Abort,
    alloc: Global,
    disk: D,
    calls: u64,
) -> Result<D, Fail>
    requires { calls ≤ 8 }
{
    let mut journal = second_journal(rt, alloc, disk)?;
    holds(rt, switch(rt, &mut journal).is_ok());
    is_number(rt, journal.clock(), CALLS + calls);
    Ok(journal.into_disk())
}

// The frame is there until the header gate of the other area is open.
fn leaves_old_or_new(
    rt: &impl Abort,
    alloc: Global,
    disk: &mut MemoryDisk,
    calls: u64,
) -> Result<(), Fail>
    requires { calls ≤ 8 }
{
    let end = CALLS + calls;
    // A stop within the next call is one after the last.
    holds(rt, disk.sync(Area::A).is_ok());
    // With the byte 0 and what stood before, the write of the gate doesn't open it.
    let table = [
        (Torn::Old, false),
        (Torn::New, true),
        (Torn::Byte(0), false),
        (Torn::Byte(7), true),
    ];
    for (torn, opens) in table {
        for call in CALLS + 1..end + 2 {
            let gone = call > end || (opens && call + 1 >= end);
            let want: &[u8] = if gone { b"" } else { b"one " };
            leaves(rt, alloc, disk, (call, torn), want)?;
        }
    }
    Ok(())
}

// Switches beside these bytes by so many device calls, and stops within each and after the last.
fn stop_beside(rt: &impl Abort, alloc: Global, beside: &[u8], calls: u64) -> Result<(), Fail>
    requires { calls ≤ 8 }
{
    let mut disk = switched_by(rt, alloc, disk_beside(alloc, beside, &[])?, calls)?;
    leaves_old_or_new(rt, alloc, &mut disk, calls)
}

#[test]
fn a_stop_within_a_switch_leaves_the_old_area_or_the_new(rt: HostRuntime) -> Result<(), Fail> {
    let alloc = rt.alloc();
    // Two calls close the gate of the other area.
    stop_beside(&rt, alloc, &[], 8)?;
    // A closed gate is left alone, whatever stands behind it.
    stop_beside(&rt, alloc, &[0, 9, 9], 6)?;
    stop_beside(&rt, alloc, &EMPTY, 8)?;
    stop_beside(&rt, alloc, &OLD_EMPTY, 8)
}

// Switches where this device call fails, mends, and switches again.
fn switched_again<D: Disk + Drop>(
    rt: &impl Abort,
    alloc: Global,
    disk: D,
    call: u64,
) -> Result<D, Fail> {
    let mut journal = second_journal(rt, alloc, disk)?;
    holds(rt, switch(rt, &mut journal).is_err());
    holds(rt, journal.area() == Area::A);
    holds(rt, journal.waits() == (call < 3 || call > 6));
    holds(rt, journal.mend().is_ok());
    // From here on the gate is a synced 0, so it isn't closed again.
    let before = journal.clock();
    holds(rt, !journal.waits());
    holds(rt, switch(rt, &mut journal).is_ok());
    is_number(rt, journal.clock(), before.saturating_add(6));
    Ok(journal.into_disk())
}

fn switch_twice(rt: &impl Abort, alloc: Global, call: u64) -> Result<(), Fail>
    requires { call ≤ 8 }
{
    let disk = disk_beside(alloc, &EMPTY, &[CALLS + call])?;
    let disk = switched_again(rt, alloc, disk, call)?;
    has_text(rt, alloc, &disk, b"")
}

#[test]
fn a_switch_that_failed_is_made_again_after_a_mend(rt: HostRuntime) -> Result<(), Fail> {
    let alloc = rt.alloc();
    for call in 1..9u64 {
        switch_twice(&rt, alloc, call)?;
    }
    Ok(())
}

// The opening of the gate fails at its sync, the first mend fails, and the second doesn't.
fn mended_twice<D: Disk + Drop>(rt: &impl Abort, alloc: Global, disk: D) -> Result<D, Fail> {
    let mut journal = second_journal(rt, alloc, disk)?;
    holds(rt, switch(rt, &mut journal).is_err());
    holds(rt, journal.mend().is_err());
    holds(rt, journal.waits());
    holds(rt, journal.mend().is_ok());
    holds(rt, !journal.waits());
    Ok(journal.into_disk())
}

fn is_closed(rt: &impl Abort, alloc: Global, disk: &MemoryDisk) -> Result<(), Fail> {
    holds(rt, disk.bytes(Area::B).starts_with(&HEADER));
    has_text(rt, alloc, disk, b"one ")
}

fn mend_twice(rt: &impl Abort, alloc: Global, call: u64) -> Result<(), Fail>
    requires { call ≤ 10 }
{
    let disk = disk_beside(alloc, &[], &[CALLS + 8, CALLS + call])?;
    let disk = mended_twice(rt, alloc, disk)?;
    is_closed(rt, alloc, &disk)
}

#[test]
fn a_header_gate_waits_until_a_mend_closes_it(rt: HostRuntime) -> Result<(), Fail> {
    let alloc = rt.alloc();
    // The mend fails at either call.
    mend_twice(&rt, alloc, 9)?;
    mend_twice(&rt, alloc, 10)
}
