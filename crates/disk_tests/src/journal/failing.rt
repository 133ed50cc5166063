//! Device calls that fail, and the mend behind them.
ghost use Rattle.std.specs.Prelude.{◌≡◌, ◌≤◌, false};
ghost use Rattle.bbs_journal.specs.declared.waiting.Waiting.TheVariants.{Nothing};

use super::{CALLS, EMPTY, MOST, TWO, empty_disk, empty_journal, fault_of, is_cut, leaves};
use crate::asserts::{are_bytes, holds, is_number};
use bbs_journal::{DiskFault, Journal, LoadFault, load};
use disk_trait::{Area, Disk, MemoryDisk, Torn};
use std::alloc::Global;
use std::process::Abort;
use std::test::Fail;

// The disk after a load that failed, and why it did.
fn failed_load<D: Disk + Drop>(alloc: Global, disk: D) -> (D, Option<LoadFault>) {
    match load(alloc, disk, MOST) {
        Ok(loaded) => (loaded.journal.into_disk(), None),
        Err((disk, why)) => (disk, Some(fault_of(why))),
    }
}

fn is_told(rt: &impl Abort, fault: Option<LoadFault>, call: u64) {
    assert_eq!(rt; fault, Some(LoadFault::Disk), "at call {call}");
}

fn failed_once(rt: &impl Abort, disk: &MemoryDisk, call: u64) {
    is_number(rt, disk.clock(), call);
    is_number(rt, disk.faults(), 1);
    are_bytes(rt, disk.bytes(Area::A), &EMPTY);
}

fn fails_to_load(rt: &impl Abort, alloc: Global, disk: MemoryDisk, call: u64) {
    let (disk, fault) = failed_load(alloc, disk);
    is_told(rt, fault, call);
    failed_once(rt, &disk, call);
}

#[test]
fn a_load_fails_where_a_device_call_fails(rt: HostRuntime) -> Result<(), Fail> {
    let alloc = rt.alloc();
    for call in 1..CALLS + 1 {
        fails_to_load(&rt, alloc, empty_disk(alloc, &[call])?, call);
    }
    Ok(())
}

// An append that fails at this device call of its own, and takes so many calls with its mend.
fn append_again<D: Disk + Drop>(
    rt: &impl Abort,
    alloc: Global,
    disk: D,
    call: u64,
    calls: u64,
) -> Result<D, Fail>
    requires { calls ≤ 6 }
{
    let mut journal = empty_journal(rt, alloc, disk)?;
    holds(rt, journal.append(b"one").is_err());
    is_number(rt, journal.frames(), 0);
    holds(rt, journal.waits() == (call > 2));
    holds(rt, journal.mend().is_ok());
    is_number(rt, journal.clock(), CALLS + calls);
    holds(rt, journal.append(b"two").is_ok());
    Ok(journal.into_disk())
}

fn has_two(rt: &impl Abort, disk: &MemoryDisk) {
    is_cut(rt, disk.bytes(Area::A), 51, &EMPTY[..51], &TWO);
}

#[test]
fn what_was_refused_is_gone_after_the_mend(rt: HostRuntime) -> Result<(), Fail> {
    let alloc = rt.alloc();
    for call in 1..5u64 {
        // Behind the third and the fourth two more close the gate.
        let calls = if call > 2 { call + 2 } else { call };
        let disk = empty_disk(alloc, &[CALLS + call])?;
        let disk = append_again(&rt, alloc, disk, call, calls)?;
        has_two(&rt, &disk);
    }
    Ok(())
}

fn mend_again<D: Disk + Drop>(rt: &impl Abort, alloc: Global, disk: D) -> Result<D, Fail> {
    let mut journal = empty_journal(rt, alloc, disk)?;
    holds(rt, journal.append(b"one").is_err());
    holds(rt, journal.mend().is_err());
    holds(rt, journal.waits());
    holds(rt, journal.mend().is_ok());
    holds(rt, !journal.waits());
    Ok(journal.into_disk())
}

fn has_no_frame(rt: &impl Abort, disk: &MemoryDisk) {
    holds(rt, disk.bytes(Area::A).starts_with(&EMPTY));
}

#[test]
fn a_mend_that_fails_leaves_the_gate_to_the_next(rt: HostRuntime) -> Result<(), Fail> {
    let alloc = rt.alloc();
    for call in 4..6 {
        let disk = empty_disk(alloc, &[CALLS + 3, CALLS + call])?;
        let disk = mend_again(&rt, alloc, disk)?;
        has_no_frame(&rt, &disk);
    }
    Ok(())
}

// Mends what waits, and appends.
fn put<D: Disk>(
    rt: &impl Abort,
    journal: &mut Journal<D>,
    payload: &[u8; 3],
) -> Result<(), DiskFault>
    requires { journal.old.broken ≡ false }
    ensures { journal.new.broken ≡ false }
{
    holds(rt, journal.frames() < 9);
    journal.mend()?;
    journal.append(payload)
}

// Puts a payload, notes it where it is accepted, with a blank behind it, and tells whether it is.
fn offer<D: Disk>(
    rt: &impl Abort,
    journal: &mut Journal<D>,
    payload: &[u8; 3],
    accepted: &mut Vec<u8>,
) -> Result<bool, Fail>
    requires { journal.old.broken ≡ false }
    ensures { journal.new.broken ≡ false }
{
    if put(rt, journal, payload).is_err() {
        return Ok(false);
    }
    accepted.extend_from_slice(payload)?;
    accepted.push(b' ')?;
    Ok(true)
}

// Puts three payloads once, and a fourth once more where it is refused. Gives the accepted ones.
fn put_four<D: Disk>(
    rt: &impl Abort,
    alloc: Global,
    journal: &mut Journal<D>,
) -> Result<Vec<u8>, Fail>
    requires { journal.old.broken ≡ false }
{
    let mut accepted = Vec::new(alloc);
    let _one = offer(rt, journal, b"one", &mut accepted)?;
    let _two = offer(rt, journal, b"two", &mut accepted)?;
    let _six = offer(rt, journal, b"six", &mut accepted)?;
    if !offer(rt, journal, b"ten", &mut accepted)? {
        holds(rt, offer(rt, journal, b"ten", &mut accepted)?);
    }
    Ok(accepted)
}

// The disk behind these puts, and what was accepted.
fn with_four<D: Disk + Drop>(
    rt: &impl Abort,
    alloc: Global,
    disk: D,
) -> Result<(D, Vec<u8>), Fail> {
    let mut journal = empty_journal(rt, alloc, disk)?;
    let accepted = put_four(rt, alloc, &mut journal)?;
    Ok((journal.into_disk(), accepted))
}

// After that many faults a stop leaves what was accepted.
fn leaves_accepted(
    rt: &impl Abort,
    alloc: Global,
    disk: &mut MemoryDisk,
    faults: u64,
    accepted: &[u8],
) -> Result<(), Fail> {
    let end = disk.clock();
    is_number(rt, disk.faults(), faults);
    // A stop within the next call is one after the last.
    holds(rt, disk.sync(Area::B).is_ok());
    let call = end.saturating_add(1);
    leaves(rt, alloc, disk, (call, Torn::Old), accepted)?;
    leaves(rt, alloc, disk, (call, Torn::New), accepted)?;
    leaves(rt, alloc, disk, (call, Torn::Byte(7)), accepted)
}

// Puts where these calls fail, and then stops: only what was accepted is left.
fn stop_after_puts(rt: &impl Abort, alloc: Global, failing: &[u64]) -> Result<(), Fail> {
    let (mut disk, accepted) = with_four(rt, alloc, empty_disk(alloc, failing)?)?;
    leaves_accepted(rt, alloc, &mut disk, failing.len() as u64, &accepted)
}

#[test]
fn a_stop_leaves_what_was_accepted_and_nothing_that_was_refused(
    rt: HostRuntime,
) -> Result<(), Fail> {
    let alloc = rt.alloc();
    // Each call of three appends. Of those behind it, up to the last call of the mend that it asks for,
    // one fails besides.
    for call in CALLS + 1..CALLS + 13 {
        stop_after_puts(&rt, alloc, &[call])?;
        stop_after_puts(&rt, alloc, &[call, call + 1])?;
        stop_after_puts(&rt, alloc, &[call, call + 2])?;
    }
    Ok(())
}
