//! What the tests begin with: disks in memory, lockets and commands. What owns a locket is written over any disk, and
//! has no assertion behind it.
use crate::asserts::{End, is_end};
use crash_backoff::Moment;
use diego_names::Name;
use disk_trait::{Disk, MemoryDisk};
use locket::{LockCommand, LockItem, LockOp, LockState, Locket, LocketParts, load};
use std::alloc::Global;
use std::process::Abort;
use std::test::Fail;

/// How many device calls the load of a locket without frames makes.
pub const CALLS: u64 = 7;

/// A disk in memory of these bytes, of which these calls fail.
pub fn disk_of(alloc: Global, a: &[u8], b: &[u8], failing: &[u64]) -> Result<MemoryDisk, Fail> {
    let a = a.to_vec(alloc)?;
    let b = b.to_vec(alloc)?;
    Ok(MemoryDisk::new(alloc, a, b, failing.to_vec(alloc)?))
}

/// The locket of a disk that must hold one.
pub fn loaded<D: Disk + Drop>(alloc: Global, disk: D) -> Result<Locket<D>, Fail> {
    match load(alloc, disk) {
        Ok(locket) => Ok(locket),
        Err((_, fault)) => Err(Fail::from(fault)),
    }
}

/// The state of the locket of these areas.
pub fn state_in(alloc: Global, a: &[u8], b: &[u8]) -> Result<LockState, Fail> {
    let locket = loaded(alloc, disk_of(alloc, a, b, &[])?)?;
    Ok(locket.state())
}

pub fn acquire(now: u32, owner: &[u8], ttl: u32) -> Result<LockCommand, Fail> {
    let owner = Name::read(owner)?;
    let op = LockOp::Acquire { owner, ttl };
    Ok(LockCommand {
        now: Moment(now),
        op,
    })
}

pub fn renew(now: u32, owner: &[u8], fence: u64, ttl: u32) -> Result<LockCommand, Fail> {
    let owner = Name::read(owner)?;
    let op = LockOp::Renew { owner, fence, ttl };
    Ok(LockCommand {
        now: Moment(now),
        op,
    })
}

pub fn release(now: u32, owner: &[u8], fence: u64) -> Result<LockCommand, Fail> {
    let owner = Name::read(owner)?;
    let op = LockOp::Release { owner, fence };
    Ok(LockCommand {
        now: Moment(now),
        op,
    })
}

/// A call, and how it has to end.
#[derive(Clone, Copy)]
pub struct Step {
    pub command: LockCommand,
    pub end: End,
}

fn call_all<D: Disk>(rt: &impl Abort, locket: &mut Locket<D>, steps: &[Step]) {
    for step in steps {
        is_end(rt, locket.call(step.command), step.end);
    }
}

/// Loads a locket, makes these calls, and gives its disk, its log and its marks.
pub fn play<D: Disk + Drop>(
    rt: &impl Abort,
    alloc: Global,
    disk: D,
    steps: &[Step],
) -> Result<(D, Vec<LockItem>, Vec<u64>), Fail> {
    let mut locket = loaded(alloc, disk)?;
    call_all(rt, &mut locket, steps);
    let LocketParts { disk, log, marks } = locket.into_parts();
    Ok((disk, log, marks))
}
