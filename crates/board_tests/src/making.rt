//! What the tests begin with: disks in memory, boards, rows and commands. What owns a board is written over any
//! disk, and has no assertion behind it.
use bbs_board::{Board, Closed, KeptIn, load, prepare};
use bbs_model::{Command, Op, Rows};
use crash_backoff::Moment;
use diego_names::{Key, Name};
use disk_trait::{Area, Disk, MemoryDisk};
use lrp_records::{Actual, Desired, LrpState, Presence};
use std::alloc::Global;
use std::test::Fail;

/// A disk in memory of these bytes, of which these calls fail.
pub fn disk_of(alloc: Global, a: &[u8], b: &[u8], failing: &[u64]) -> Result<MemoryDisk, Fail> {
    let a = a.to_vec(alloc)?;
    let b = b.to_vec(alloc)?;
    Ok(MemoryDisk::new(alloc, a, b, failing.to_vec(alloc)?))
}

/// A disk of what this one reads now.
pub fn copy_of(alloc: Global, disk: &MemoryDisk) -> Result<MemoryDisk, Fail> {
    disk_of(alloc, disk.bytes(Area::A), disk.bytes(Area::B), &[])
}

/// The board of a disk that must hold one.
pub fn loaded<D: Disk + Drop>(alloc: Global, disk: D) -> Result<Board<D>, Fail> {
    match load(alloc, disk) {
        Ok(board) => Ok(board),
        Err((_, fault)) => Err(Fail::from(fault)),
    }
}

/// The board of an empty disk, without rows.
pub fn begun<D: Disk + Drop>(alloc: Global, mut disk: D) -> Result<Board<D>, Fail> {
    prepare(&mut disk)?;
    loaded(alloc, disk)
}

/// The disk of a board, which is closed.
pub fn disk_in<D: Disk + Drop>(board: Board<D>) -> D {
    let Closed {
        disk,
        log: _,
        marks: _,
    } = board.close();
    disk
}

pub fn kept(area: Area, generation: u64, frames: u64) -> KeptIn {
    KeptIn {
        area,
        generation,
        frames,
    }
}

/// Where a board is found, and its rows.
#[derive(Drop)]
pub struct Opened {
    pub kept: KeptIn,
    pub rows: Rows,
}

fn looked_at<D: Disk>(alloc: Global, board: &Board<D>) -> Result<Opened, Fail> {
    let rows = board.rows(alloc)?;
    Ok(Opened {
        kept: board.kept_in(),
        rows,
    })
}

/// What the next load finds on a disk.
pub fn found<D: Disk + Drop>(alloc: Global, disk: D) -> Result<Opened, Fail> {
    let board = loaded(alloc, disk)?;
    looked_at(alloc, &board)
}

/// The same of these areas.
pub fn found_in(alloc: Global, a: &[u8], b: &[u8]) -> Result<Opened, Fail> {
    found(alloc, disk_of(alloc, a, b, &[])?)
}

/// The names of the processes that are wanted, one behind the other.
pub fn names_of(alloc: Global, rows: &Rows) -> Result<Vec<u8>, Fail> {
    let mut names = Vec::new(alloc);
    for row in rows.desired.items() {
        names.extend_from_slice(row.process.bytes())?;
    }
    Ok(names)
}

/// A client wants so many instances of a process.
pub fn wanted(process: &[u8], domain: &[u8], instances: u32) -> Result<Desired, Fail> {
    Ok(Desired {
        process: Name::read(process)?,
        domain: Name::read(domain)?,
        instances,
        memory: 64,
        disk: 128,
        tag: None,
        route: None,
        port: 8080,
    })
}

/// The row of the first instance of a process, since second 5 and in a domain, if it has one.
pub fn instance(
    process: &[u8],
    presence: Presence,
    state: LrpState,
    domain: Option<Name>,
) -> Result<Actual, Fail> {
    let key = Key {
        process: Name::read(process)?,
        index: 0,
    };
    Ok(Actual {
        key,
        presence,
        state,
        count: 0,
        since: Moment(5),
        error: false,
        domain,
    })
}

pub fn at(now: u32, op: Op) -> Command {
    Command {
        now: Moment(now),
        op,
    }
}

/// The command by which so many instances are wanted of the process with this name of one letter.
pub fn desire(letter: u8, instances: u32) -> Result<Command, Fail> {
    let desired = wanted(&[letter], &[letter], instances)?;
    Ok(at(0, Op::Desire { desired }))
}

pub fn update(now: u32, process: &[u8], instances: u32) -> Result<Command, Fail> {
    let update = Op::Update {
        process: Name::read(process)?,
        instances,
        route: None,
        port: 8080,
    };
    Ok(at(now, update))
}
