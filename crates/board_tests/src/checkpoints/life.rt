//! A life that fills area after area: of one process, wanted with two instances and one by turns.
use super::does;
use crate::asserts::{holds, is_kept, is_number};
use crate::bytes::EMPTY;
use crate::making::{Opened, desire, disk_in, disk_of, found_in, kept, loaded, update};
use bbs_board::{Board, KeptIn};
use bbs_model::Command;
use disk_trait::{Area, Disk, MemoryDisk};
use std::alloc::Global;
use std::process::Abort;
use std::test::Fail;

/// Its first transition, and those that follow it by turns: to two instances and to one.
pub type Life = [Command; 3];

pub fn make_life() -> Result<Life, Fail> {
    Ok([desire(b'w', 1)?, update(0, b"w", 2)?, update(0, b"w", 1)?])
}

fn transition(life: &Life, number: u64) -> Command {
    if number == 0 {
        life[0]
    } else if number % 2 == 1 {
        life[1]
    } else {
        life[2]
    }
}

/// Goes on until there were so many transitions.
pub fn live<D: Disk>(rt: &impl Abort, board: &mut Board<D>, life: &Life, next: u64) {
    for number in board.next()..next {
        holds(rt, does(board, transition(life, number)));
    }
}

// After so many transitions the board is kept there.
fn passes<D: Disk + Drop>(
    rt: &impl Abort,
    mut board: Board<D>,
    life: &Life,
    stations: &[(u64, KeptIn)],
) -> D {
    for (next, kept) in stations {
        live(rt, &mut board, life, *next);
        is_number(rt, board.next(), *next);
        is_kept(rt, board.kept_in(), *kept);
    }
    disk_in(board)
}

/// The disk of a board that is loaded from this area and passes these stations.
pub fn lived(
    rt: &impl Abort,
    alloc: Global,
    area: &[u8],
    stations: &[(u64, KeptIn)],
) -> Result<MemoryDisk, Fail> {
    let life = make_life()?;
    let board = loaded(alloc, disk_of(alloc, area, b"", &[])?)?;
    Ok(passes(rt, board, &life, stations))
}

/// How many device calls the load of a full area makes: its 69,695 bytes are read in two pieces.
pub const FULL_CALLS: u64 = 8;

/// An area of generation 1 with so many frames.
pub fn area_with(rt: &impl Abort, alloc: Global, frames: u64) -> Result<Vec<u8>, Fail> {
    let disk = lived(rt, alloc, &EMPTY, &[(frames, kept(Area::A, 1, frames))])?;
    Ok(disk.bytes(Area::A).to_vec(alloc)?)
}

// Where a board is found, after how many transitions, and with how many instances.
fn is_found(rt: &impl Abort, found: &Opened, kept: KeptIn, next: u64, instances: u32) {
    is_kept(rt, found.kept, kept);
    is_number(rt, found.rows.next, next);
    let wanted = found.rows.desired.items();
    holds(rt, wanted.len() == 1);
    is_number(rt, wanted[0].instances as u64, instances as u64);
}

// The last area, and the one that was left, which is as it was.
fn are_found(rt: &impl Abort, alloc: Global, a: &[u8], b: &[u8]) -> Result<(), Fail> {
    is_found(rt, &found_in(alloc, a, b)?, kept(Area::B, 4, 1), 12289, 1);
    is_found(
        rt,
        &found_in(alloc, a, b"")?,
        kept(Area::A, 3, 4096),
        12288,
        2,
    );
    Ok(())
}

#[test]
fn a_board_whose_area_is_full_goes_on_in_the_other_one(rt: HostRuntime) -> Result<(), Fail> {
    let alloc = rt.alloc();
    let stations = [
        (4095, kept(Area::A, 1, 4095)),
        (4096, kept(Area::A, 1, 4096)),
        (4097, kept(Area::B, 2, 1)),
        (8192, kept(Area::B, 2, 4096)),
        (8193, kept(Area::A, 3, 1)),
        (12288, kept(Area::A, 3, 4096)),
        (12289, kept(Area::B, 4, 1)),
    ];
    let disk = lived(&rt, alloc, &EMPTY, &stations)?;
    are_found(&rt, alloc, disk.bytes(Area::A), disk.bytes(Area::B))
}

// Ten transitions for which room was made. The seventh finds 4,096 frames, and makes a checkpoint.
fn has_room<D: Disk + Drop>(rt: &impl Abort, mut board: Board<D>, life: &Life) -> D {
    holds(rt, board.reserve(10).is_ok());
    live(rt, &mut board, life, 4100);
    is_kept(rt, board.kept_in(), kept(Area::B, 2, 4));
    disk_in(board)
}

#[test]
fn ten_calls_find_their_room_also_where_one_makes_a_checkpoint(
    rt: HostRuntime,
) -> Result<(), Fail> {
    let alloc = rt.alloc();
    let life = make_life()?;
    let area = area_with(&rt, alloc, 4090)?;
    let board = loaded(alloc, disk_of(alloc, &area, b"", &[])?)?;
    let disk = has_room(&rt, board, &life);
    is_number(&rt, disk.clock(), FULL_CALLS + 10 * 4 + 8);
    Ok(())
}
