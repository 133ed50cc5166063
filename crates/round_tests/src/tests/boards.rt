//! Stories over a board on a disk in memory. A board is closed whatever came of its story, so that none is ever dropped.
use super::beside::BesidePort;
use super::playing::{Played, Told, play};
use super::turns::Turn;
use bbs_board::{Board, Closed, load};
use bbs_model::{Command, Item};
use board_port::SolePort;
use disk_trait::{Disk, MemoryDisk};
use std::alloc::Global;
use std::test::Fail;

/// The number of the one caller.
pub const CALLER: u32 = 7;

/// The area of a board without rows that has made so many transitions, which five bytes say.
fn area(alloc: Global, transitions: &[u8; 5]) -> Result<Vec<u8>, Fail> {
    let head = b"\x01DIEGOBBS\x00\x02\x00\x00\x00\x00\x00\x00\x00\x01\x00\x00\x00\x1c";
    let mut area = head.to_vec(alloc)?;
    area.extend_from_slice(&[0; 3])?;
    area.extend_from_slice(transitions)?;
    area.extend_from_slice(&[0; 21])?;
    Ok(area)
}

/// A disk in memory with that board, of which these device calls fail.
pub fn disk_with(
    alloc: Global,
    transitions: &[u8; 5],
    failing: &[u64],
) -> Result<MemoryDisk, Fail> {
    let area = area(alloc, transitions)?;
    let failing = failing.to_vec(alloc)?;
    Ok(MemoryDisk::new(alloc, area, Vec::new(alloc), failing))
}

/// The board of a disk.
pub fn loaded<D: Disk + Drop>(alloc: Global, disk: D) -> Result<Board<D>, Fail> {
    match load(alloc, disk) {
        Err((_disk, _fault)) => Err(Fail::from("the disk holds a board")),
        Ok(board) => Ok(board),
    }
}

/// The log of a board, which is closed.
pub fn closed<D: Disk + Drop>(board: Board<D>) -> Vec<Item> {
    let Closed {
        disk: _disk,
        log,
        marks: _marks,
    } = board.close();
    log
}

// What came of a story over a board, which is closed.
fn told_of<D: Disk + Drop>(board: Board<D>, end: Result<Played, Fail>) -> Result<Told, Fail> {
    let log = closed(board);
    match end {
        Err(fail) => Err(fail),
        Ok(end) => Ok(Told { end, log }),
    }
}

// Plays a story over the board of a disk.
fn told_over<D: Disk + Drop>(alloc: Global, disk: D, story: &[(u32, Turn)]) -> Result<Told, Fail> {
    let mut board = loaded(alloc, disk)?;
    let mut port = SolePort {
        board: &mut board,
        by: CALLER,
    };
    let end = play(alloc, &mut port, story);
    told_of(board, end)
}

// The same, where another caller does a command right before the caller's call of that number, from 1.
fn beside_over<D: Disk + Drop>(
    alloc: Global,
    disk: D,
    story: &[(u32, Turn)],
    until: u64,
    visit: Command,
) -> Result<Told, Fail> {
    let mut board = loaded(alloc, disk)?;
    let mut port = BesidePort {
        board: &mut board,
        until,
        visit,
    };
    let end = play(alloc, &mut port, story);
    told_of(board, end)
}

/// Plays a story over a board on a disk in memory that has no rows, and has made so many transitions.
pub fn told_after(
    alloc: Global,
    transitions: &[u8; 5],
    story: &[(u32, Turn)],
) -> Result<Told, Fail> {
    told_over(alloc, disk_with(alloc, transitions, &[])?, story)
}

/// Plays a story over a new board on a disk in memory.
pub fn told(alloc: Global, story: &[(u32, Turn)]) -> Result<Told, Fail> {
    told_after(alloc, &[0; 5], story)
}

/// The same, where another caller does a command right before the caller's call of that number, from 1.
pub fn told_beside(
    alloc: Global,
    story: &[(u32, Turn)],
    until: u64,
    visit: Command,
) -> Result<Told, Fail> {
    beside_over(alloc, disk_with(alloc, &[0; 5], &[])?, story, until, visit)
}
