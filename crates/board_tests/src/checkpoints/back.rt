//! Checkpoints by turns between the areas, and one that has nothing to do.
use super::life::{Life, area_with, live, make_life};
use super::{CALLS, are_named, does};
use crate::asserts::{are_bytes, holds, is_kept, is_number, is_outcome};
use crate::bytes::EMPTY;
use crate::making::{Opened, desire, disk_in, disk_of, found_in, kept, loaded};
use bbs_board::Board;
use bbs_model::Command;
use disk_trait::{Area, Disk, MemoryDisk};
use std::alloc::Global;
use std::process::Abort;
use std::test::Fail;

fn does_nothing<D: Disk + Drop>(rt: &impl Abort, mut board: Board<D>) -> D {
    is_outcome(rt, board.checkpoint(), Ok(()));
    is_number(rt, board.clock(), CALLS);
    is_kept(rt, board.kept_in(), kept(Area::A, 1, 0));
    disk_in(board)
}

fn is_empty_board(rt: &impl Abort, disk: &MemoryDisk) {
    are_bytes(rt, disk.bytes(Area::A), &EMPTY);
    holds(rt, disk.bytes(Area::B).is_empty());
}

#[test]
fn a_checkpoint_of_an_area_without_frames_does_nothing(rt: HostRuntime) -> Result<(), Fail> {
    let alloc = rt.alloc();
    let board = loaded(alloc, disk_of(alloc, &EMPTY, b"", &[])?)?;
    let disk = does_nothing(&rt, board);
    is_empty_board(&rt, &disk);
    Ok(())
}

// The area of generation 3 after eleven transitions.
const BACK: [u8; 72] = *b"\x01DIEGOBBS\x00\x02\x00\x00\x00\x00\x00\x00\x00\x03\x00\x00\x00\x30\
\x00\x00\x00\x00\x00\x00\x00\x0b\
\x00\x00\x00\x01\x00\x00\x00\x00\x00\x00\x00\x00\x00\x00\x00\x00\x00\x00\x00\x00\
\x01w\x01w\x00\x00\x00\x01\x00\x00\x00\x40\x00\x00\x00\x80\x00\x00\x1f\x90\x00";

// A checkpoint, one that finds nothing to do, a transition, and a checkpoint back into the area that was
// left.
fn there_and_back<D: Disk + Drop>(rt: &impl Abort, mut board: Board<D>, life: &Life) -> D {
    is_outcome(rt, board.checkpoint(), Ok(()));
    is_kept(rt, board.kept_in(), kept(Area::B, 2, 0));
    is_number(rt, board.clock(), CALLS + 8);
    is_outcome(rt, board.checkpoint(), Ok(()));
    is_kept(rt, board.kept_in(), kept(Area::B, 2, 0));
    is_number(rt, board.clock(), CALLS + 8);
    live(rt, &mut board, life, 11);
    is_kept(rt, board.kept_in(), kept(Area::B, 2, 1));
    is_outcome(rt, board.checkpoint(), Ok(()));
    is_kept(rt, board.kept_in(), kept(Area::A, 3, 0));
    disk_in(board)
}

/// The disk of a board of ten transitions in this area that went there and back.
pub fn gone_back(rt: &impl Abort, alloc: Global, old: &[u8]) -> Result<MemoryDisk, Fail> {
    let life = make_life()?;
    let board = loaded(alloc, disk_of(alloc, old, b"", &[])?)?;
    Ok(there_and_back(rt, board, &life))
}

fn goes_on<D: Disk + Drop>(rt: &impl Abort, mut board: Board<D>, command: Command) -> D {
    is_kept(rt, board.kept_in(), kept(Area::A, 3, 0));
    holds(rt, does(&mut board, command));
    disk_in(board)
}

// A board has one frame, and both processes.
fn has_gone_on(rt: &impl Abort, alloc: Global, found: &Opened) -> Result<(), Fail> {
    is_kept(rt, found.kept, kept(Area::A, 3, 1));
    is_number(rt, found.rows.next, 12);
    are_named(rt, alloc, &found.rows, b"mw")
}

fn goes_on_here(rt: &impl Abort, alloc: Global, a: &[u8], b: &[u8]) -> Result<(), Fail> {
    let found = found_in(alloc, a, b)?;
    has_gone_on(rt, alloc, &found)
}

// Whatever stands behind the closed gate, the board goes on over it.
fn is_free(rt: &impl Abort, alloc: Global, area: &[u8], other: &[u8]) -> Result<(), Fail> {
    let command = desire(b'm', 1)?;
    let board = loaded(alloc, disk_of(alloc, area, other, &[])?)?;
    let disk = goes_on(rt, board, command);
    goes_on_here(rt, alloc, disk.bytes(Area::A), disk.bytes(Area::B))
}

// The area that was gone back to, with what the longer one held behind it, with nothing, and with
// open gates.
fn is_back(rt: &impl Abort, alloc: Global, old: &[u8], a: &[u8], b: &[u8]) -> Result<(), Fail> {
    // A head without rows, a frame of 28 bytes and nine of 17, and a gate.
    is_number(rt, old.len() as u64, 233);
    is_number(rt, a.len() as u64, 233);
    holds(rt, a.starts_with(&BACK));
    holds(rt, a.get(72..) == old.get(72..));
    is_free(rt, alloc, a, b)?;
    is_free(rt, alloc, &BACK, b)?;
    let mut open = BACK.to_vec(alloc)?;
    open.extend_from_slice(&[255; 40])?;
    is_free(rt, alloc, &open, b)
}

#[test]
fn what_a_longer_area_held_stays_behind_a_closed_gate(rt: HostRuntime) -> Result<(), Fail> {
    let alloc = rt.alloc();
    let old = area_with(&rt, alloc, 10)?;
    let disk = gone_back(&rt, alloc, &old)?;
    is_back(&rt, alloc, &old, disk.bytes(Area::A), disk.bytes(Area::B))
}
