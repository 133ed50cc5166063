//! What the tests begin with: prepared disks in memory, boards and commands.
use bbs_board::{Board, Closed, load};
use bbs_model::{Command, Op};
use crash_backoff::Moment;
use diego_names::Name;
use disk_trait::{Disk, MemoryDisk};
use lrp_records::Desired;
use std::alloc::Global;
use std::test::Fail;

/// A prepared area.
pub const EMPTY: [u8; 52] = *b"\x01DIEGOBBS\x00\x02\x00\x00\x00\x00\x00\x00\x00\x01\
\x00\x00\x00\x1c\x00\x00\x00\x00\x00\x00\x00\x00\x00\x00\x00\x00\x00\x00\x00\x00\x00\x00\x00\x00\
\x00\x00\x00\x00\x00\x00\x00\x00\x00";

/// The number of device calls of a load.
pub const CALLS: u64 = 7;

/// A disk in memory of these bytes, of which these calls fail.
pub fn disk_of(alloc: Global, a: &[u8], b: &[u8], failing: &[u64]) -> Result<MemoryDisk, Fail> {
    let a = a.to_vec(alloc)?;
    let b = b.to_vec(alloc)?;
    Ok(MemoryDisk::new(alloc, a, b, failing.to_vec(alloc)?))
}

/// A disk with an empty board, of which these calls fail.
pub fn prepared(alloc: Global, failing: &[u64]) -> Result<MemoryDisk, Fail> {
    disk_of(alloc, &EMPTY, b"", failing)
}

fn next_and_close<D: Disk + Drop>(board: Board<D>) -> u64 {
    let next = board.next();
    let Closed {
        disk: _,
        log: _,
        marks: _,
    } = board.close();
    next
}

// What owns a board is written over any disk.
fn next_of<D: Disk + Drop>(alloc: Global, disk: D) -> Result<u64, Fail> {
    match load(alloc, disk) {
        Ok(board) => Ok(next_and_close(board)),
        Err((_, fault)) => Err(Fail::from(fault)),
    }
}

/// The number of transitions of the board that these areas hold.
pub fn next_in(alloc: Global, a: &[u8], b: &[u8]) -> Result<u64, Fail> {
    next_of(alloc, disk_of(alloc, a, b, &[])?)
}

/// A board is to have three instances of this process of this domain.
pub fn desire_of(process: Name, domain: Name) -> Command {
    let desired = Desired {
        process,
        domain,
        instances: 3,
        memory: 64,
        disk: 128,
        tag: None,
        route: None,
        port: 8080,
    };
    Command {
        now: Moment(0),
        op: Op::Desire { desired },
    }
}

/// A board is to have three instances of a process of the domain `apps`.
pub fn desire(process: &[u8]) -> Result<Command, Fail> {
    Ok(desire_of(Name::read(process)?, Name::read(b"apps")?))
}
