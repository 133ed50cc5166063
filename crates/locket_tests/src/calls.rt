//! Calls and their answers, where no device call fails.
use crate::asserts::{are_bytes, are_items, are_numbers, holds, is_number};
use crate::bytes::{EMPTY, LIVED, OLD_FRONT, joined};
use crate::making::{CALLS, Step, acquire, disk_of, loaded, play, release, renew, state_in};
use bbs_journal::prepare;
use crash_backoff::Moment;
use diego_names::Name;
use disk_trait::{Area, Disk, MemoryDisk};
use locket::{
    Lease, LockItem, LockRefusal, LockReply, LockState, put_lock_command, read_lock_command,
};
use std::alloc::Global;
use std::process::Abort;
use std::test::Fail;

fn lease_of(owner: &[u8], fence: u64, until: u64) -> Result<Lease, Fail> {
    let owner = Name::read(owner)?;
    Ok(Lease {
        owner,
        fence,
        until,
    })
}

fn given(owner: &[u8], fence: u64, until: u64) -> Result<LockReply, Fail> {
    let lease = lease_of(owner, fence, until)?;
    Ok(LockReply::Ok { lease })
}

fn refused(why: LockRefusal) -> LockReply {
    LockReply::Refused(why)
}

// Two who ask for one lease.
fn two_holders() -> Result<[Step; 5], Fail> {
    let by = Name::read(b"bbs-1")?;
    let first = acquire(0, b"bbs-1", 15)?;
    let early = acquire(14, b"bbs-2", 15)?;
    let second = acquire(15, b"bbs-2", 15)?;
    let late = renew(16, b"bbs-1", 1, 15)?;
    let past = release(14, b"bbs-2", 2)?;
    let held = LockRefusal::Held { by, until: 15 };
    let other = LockRefusal::NotHolder { last: 2 };
    let seen = LockRefusal::Past { seen: Moment(15) };
    Ok([
        Step {
            command: first,
            end: Ok(given(b"bbs-1", 1, 15)?),
        },
        Step {
            command: early,
            end: Ok(refused(held)),
        },
        Step {
            command: second,
            end: Ok(given(b"bbs-2", 2, 30)?),
        },
        Step {
            command: late,
            end: Ok(refused(other)),
        },
        Step {
            command: past,
            end: Ok(refused(seen)),
        },
    ])
}

fn has_logged(rt: &impl Abort, log: &[LockItem], marks: &[u64], steps: &[Step; 5]) {
    let items = [
        LockItem::Done(steps[0].command),
        LockItem::Done(steps[2].command),
    ];
    are_items(rt, log, &items);
    are_numbers(rt, marks, &[CALLS + 4, CALLS + 8]);
}

#[test]
fn the_second_holder_comes_when_the_first_has_run_out(rt: HostRuntime) -> Result<(), Fail> {
    let alloc = rt.alloc();
    let steps = two_holders()?;
    let (_disk, log, marks) = play(&rt, alloc, disk_of(alloc, &EMPTY, b"", &[])?, &steps)?;
    has_logged(&rt, &log, &marks, &steps);
    Ok(())
}

// The lease is given, is there already, is renewed twice, and is given back.
fn one_holder() -> Result<[Step; 6], Fail> {
    let first = acquire(0, b"bbs-1", 15)?;
    let again = acquire(3, b"bbs-1", 40)?;
    let longer = renew(5, b"bbs-1", 1, 15)?;
    let as_long = renew(6, b"bbs-1", 1, 14)?;
    let back = release(7, b"bbs-1", 1)?;
    let gone = renew(8, b"bbs-1", 1, 15)?;
    let lease = lease_of(b"bbs-1", 1, 15)?;
    let same = lease_of(b"bbs-1", 1, 20)?;
    Ok([
        Step {
            command: first,
            end: Ok(given(b"bbs-1", 1, 15)?),
        },
        Step {
            command: again,
            end: Ok(LockReply::Same { lease }),
        },
        Step {
            command: longer,
            end: Ok(given(b"bbs-1", 1, 20)?),
        },
        Step {
            command: as_long,
            end: Ok(LockReply::Same { lease: same }),
        },
        Step {
            command: back,
            end: Ok(LockReply::Released { fence: 1 }),
        },
        Step {
            command: gone,
            end: Ok(refused(LockRefusal::NotHolder { last: 1 })),
        },
    ])
}

// The commands that changed something stand in frames, and nothing else.
fn has_stored(rt: &impl Abort, disk: &MemoryDisk) {
    are_bytes(rt, disk.bytes(Area::A), &LIVED);
    holds(rt, disk.bytes(Area::B).is_empty());
    is_number(rt, disk.clock(), CALLS + 12);
}

#[test]
fn what_changes_a_locket_is_on_the_disk(rt: HostRuntime) -> Result<(), Fail> {
    let alloc = rt.alloc();
    let steps = one_holder()?;
    let (disk, _log, _marks) = play(&rt, alloc, disk_of(alloc, &EMPTY, b"", &[])?, &steps)?;
    has_stored(&rt, &disk);
    Ok(())
}

fn has_lived(rt: &impl Abort, state: &LockState) {
    let want = LockState {
        last: 1,
        seen: Moment(7),
        held: None,
        count: 3,
    };
    assert_eq!(rt; *state, want);
}

fn has_lived_in(rt: &impl Abort, alloc: Global, a: &[u8], b: &[u8]) -> Result<(), Fail> {
    let state = state_in(alloc, a, b)?;
    has_lived(rt, &state);
    Ok(())
}

#[test]
fn both_versions_are_loaded_with_their_state(rt: HostRuntime) -> Result<(), Fail> {
    let alloc = rt.alloc();
    let old = joined(alloc, OLD_FRONT, &LIVED[51..])?;
    has_lived_in(&rt, alloc, &LIVED, b"")?;
    has_lived_in(&rt, alloc, &old, b"")?;
    // The other area is read too, and a closed one is passed over.
    has_lived_in(&rt, alloc, b"\0", &LIVED)
}

// What a life adds goes behind an old head too.
fn goes_on<D: Disk + Drop>(rt: &impl Abort, alloc: Global, disk: D) -> Result<D, Fail> {
    let first = acquire(7, b"bbs-2", 15)?;
    let end = Ok(given(b"bbs-2", 2, 22)?);
    let step = Step {
        command: first,
        end,
    };
    let (disk, _log, _marks) = play(rt, alloc, disk, &[step])?;
    Ok(disk)
}

fn has_gone_on(rt: &impl Abort, alloc: Global, disk: &MemoryDisk) -> Result<(), Fail> {
    let state = state_in(alloc, disk.bytes(Area::A), disk.bytes(Area::B))?;
    is_number(rt, state.last, 2);
    is_number(rt, state.count as u64, 4);
    Ok(())
}

#[test]
fn a_life_goes_on_behind_a_head_of_either_version(rt: HostRuntime) -> Result<(), Fail> {
    let alloc = rt.alloc();
    let old = joined(alloc, OLD_FRONT, &LIVED[51..])?;
    let disk = goes_on(&rt, alloc, disk_of(alloc, &old, b"", &[])?)?;
    has_gone_on(&rt, alloc, &disk)?;
    let disk = goes_on(&rt, alloc, disk_of(alloc, &LIVED, b"", &[])?)?;
    has_gone_on(&rt, alloc, &disk)
}

// A disk that is prepared, and closed as it was.
fn prepared<D: Disk + Drop>(rt: &impl Abort, alloc: Global, mut disk: D) -> Result<D, Fail> {
    holds(rt, prepare(&mut disk).is_ok());
    let locket = loaded(alloc, disk)?;
    Ok(locket.close())
}

#[test]
fn what_is_prepared_is_a_locket_that_was_never_used(rt: HostRuntime) -> Result<(), Fail> {
    let alloc = rt.alloc();
    let disk = prepared(&rt, alloc, disk_of(alloc, b"", b"", &[])?)?;
    are_bytes(&rt, disk.bytes(Area::A), &EMPTY);
    Ok(())
}

#[test]
fn a_command_is_read_back_from_its_bytes(rt: HostRuntime) -> Result<(), Fail> {
    let command = renew(5, b"bbs-1", 1, 15)?;
    let mut bytes = [9u8; 512];
    let len = put_lock_command(&mut bytes, &command);
    are_bytes(&rt, &bytes[..len], &LIVED[72..95]);
    holds(&rt, read_lock_command(&bytes[..len]) == Some(command));
    Ok(())
}
