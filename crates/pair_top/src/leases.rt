//! The numbers that the two boards of a pair are called with: fences of leases, which a locket gives to one
//! owner after the other.
use bbs_journal::prepare;
use crash_backoff::Moment;
use diego_names::{Name, OutOfMemory};
use disk_trait::MemoryDisk;
use locket::{LockCommand, LockOp, LockReply, Locket, load};
use std::alloc::Global;

/// The owners of the lease.
const PRIMARY: &[u8] = b"primary";

const STANDBY: &[u8] = b"standby";

/// What gives the numbers. Its disk is in memory, and is gone with it.
#[derive(Drop)]
pub(crate) struct Leases {
    locket: Locket<MemoryDisk>,
}

/// What a locket answers to a command at moment 0. A fault of its disk counts as want of memory.
fn asked(locket: &mut Locket<MemoryDisk>, op: LockOp) -> Result<LockReply, OutOfMemory> {
    match locket.call(LockCommand { now: Moment(0), op }) {
        Ok(reply) => Ok(reply),
        Err(_) => Err(OutOfMemory),
    }
}

fn name_of(name: &[u8]) -> Result<Name, OutOfMemory> {
    match Name::read(name) {
        Ok(name) => Ok(name),
        Err(_) => Err(OutOfMemory),
    }
}

/// The fence of a lease that was given.
fn fence_of(reply: &LockReply) -> Result<u64, OutOfMemory> {
    match reply {
        LockReply::Ok { lease } => Ok(lease.fence),
        LockReply::Same { .. } | LockReply::Released { .. } | LockReply::Refused(_) => {
            Err(OutOfMemory)
        }
    }
}

/// The fence of a lease that an owner acquires, for as long as there is.
fn acquired(locket: &mut Locket<MemoryDisk>, owner: &[u8]) -> Result<u64, OutOfMemory> {
    let op = LockOp::Acquire {
        owner: name_of(owner)?,
        ttl: u32::MAX,
    };
    match asked(locket, op) {
        Ok(reply) => fence_of(&reply),
        Err(want) => Err(want),
    }
}

/// Gives back the lease of an owner with this fence. Where there is none nothing has changed.
fn released(locket: &mut Locket<MemoryDisk>, owner: &[u8], fence: u64) -> Result<(), OutOfMemory> {
    let op = LockOp::Release {
        owner: name_of(owner)?,
        fence,
    };
    match asked(locket, op) {
        Ok(_) => Ok(()),
        Err(want) => Err(want),
    }
}

impl Leases {
    /// A fresh locket over a prepared disk in memory, and the fence of the primary.
    pub(crate) fn begin(alloc: Global) -> Result<(Leases, u64), OutOfMemory> {
        let mut disk = MemoryDisk::new(alloc, Vec::new(alloc), Vec::new(alloc), Vec::new(alloc));
        if prepare(&mut disk).is_err() {
            return Err(OutOfMemory);
        }
        let Ok(mut locket) = load(alloc, disk) else {
            return Err(OutOfMemory);
        };
        let fence = acquired(&mut locket, PRIMARY)?;
        Ok((Leases { locket }, fence))
    }

    /// The primary releases its lease, and the standby acquires the next one: its fence.
    pub(crate) fn hand_over(&mut self, fence: u64) -> Result<u64, OutOfMemory> {
        released(&mut self.locket, PRIMARY, fence)?;
        acquired(&mut self.locket, STANDBY)
    }
}
