//! A board of the first version, which the first legal command moves to an area of the second.
use super::faults::{doubts, leaves, offers};
use super::stops::{TORN, left};
use super::{CALLS, does};
use crate::asserts::{are_bytes, is_end, is_kept, is_kept_at, is_number, is_number_at, is_outcome};
use crate::bytes::{OLD_EMPTY, OLD_STORED};
use crate::making::{Opened, at, desire, disk_in, disk_of, kept, loaded, wanted};
use bbs_board::Board;
use bbs_model::{BoardRefusal, Command, Op, Reply};
use diego_names::Name;
use disk_trait::{Area, Disk, MemoryDisk, Torn};
use lrp_records::Desired;
use std::alloc::Global;
use std::panic::Expect;
use std::process::Abort;
use std::test::Fail;

// The area of generation 2 with the row of the desire that was there, and the frame of the new one.
const MOVED: [u8; 110] = *b"\x01DIEGOBBS\x00\x02\x00\x00\x00\x00\x00\x00\x00\x02\
\x00\x00\x00\x35\x00\x00\x00\x00\x00\x00\x00\x01\
\x00\x00\x00\x01\x00\x00\x00\x00\x00\x00\x00\x00\x00\x00\x00\x00\x00\x00\x00\x00\
\x03web\x04apps\x00\x00\x00\x03\x00\x00\x00\x40\x00\x00\x00\x80\x00\x00\x1f\x90\
\x01\x00\x1e\x01\x00\x00\x00\x00\x03two\x04apps\x00\x00\x00\x03\x00\x00\x00\x40\x00\x00\x00\x80\
\x00\x00\x1f\x90\x00";

// The same without that row and that frame.
const BARE: [u8; 52] = *b"\x01DIEGOBBS\x00\x02\x00\x00\x00\x00\x00\x00\x00\x02\
\x00\x00\x00\x1c\x00\x00\x00\x00\x00\x00\x00\x00\x00\x00\x00\x00\x00\x00\x00\x00\x00\x00\x00\x00\
\x00\x00\x00\x00\x00\x00\x00\x00\x00";

fn desire_of(process: &[u8]) -> Result<Command, Fail> {
    let desired = wanted(process, b"apps", 3)?;
    Ok(at(0, Op::Desire { desired }))
}

fn two_of(rt: &impl Abort) -> Command {
    let desired = Desired {
        process: Name::read(b"two").expect(rt, "a name"),
        domain: Name::read(b"apps").expect(rt, "a name"),
        instances: 3,
        memory: 64,
        disk: 128,
        tag: None,
        route: None,
        port: 8080,
    };
    at(0, Op::Desire { desired })
}

// That the process of this desire is wanted no more.
fn end_of(desire: &Command) -> Command {
    match desire.op {
        Op::Desire { desired } => {
            let process = desired.process;
            at(0, Op::Undesire { process })
        }
        _ => *desire,
    }
}

// A refusal leaves the board in its area, and the command after it moves it.
fn moves<D: Disk + Drop>(rt: &impl Abort, mut board: Board<D>) -> D {
    let two = two_of(rt);
    let why = BoardRefusal::Unknown;
    is_end(
        rt,
        board.call(1, end_of(&two)),
        Ok(Reply::Refused { why, place: 0 }),
    );
    is_kept(rt, board.kept_in(), kept(Area::A, 1, 1));
    is_number(rt, board.clock(), CALLS);
    is_end(rt, board.call(1, two), Ok(Reply::Ok { place: 0, stamp: 1 }));
    is_kept(rt, board.kept_in(), kept(Area::B, 2, 1));
    is_number(rt, board.clock(), CALLS + 12);
    disk_in(board)
}

fn has_areas(rt: &impl Abort, disk: &MemoryDisk, a: &[u8], b: &[u8]) {
    are_bytes(rt, disk.bytes(Area::A), a);
    are_bytes(rt, disk.bytes(Area::B), b);
}

#[test]
fn the_first_legal_command_moves_an_old_board(rt: HostRuntime) -> Result<(), Fail> {
    let alloc = rt.alloc();
    let board = loaded(alloc, disk_of(alloc, &OLD_STORED, b"", &[])?)?;
    let disk = moves(&rt, board);
    has_areas(&rt, &disk, &OLD_STORED, &MOVED);
    Ok(())
}

// A checkpoint moves an old board without frames, and finds nothing to do then.
fn moves_bare<D: Disk + Drop>(rt: &impl Abort, mut board: Board<D>) -> D {
    is_outcome(rt, board.checkpoint(), Ok(()));
    is_kept(rt, board.kept_in(), kept(Area::B, 2, 0));
    is_outcome(rt, board.checkpoint(), Ok(()));
    is_number(rt, board.clock(), CALLS + 8);
    disk_in(board)
}

#[test]
fn a_checkpoint_moves_an_old_board_without_frames(rt: HostRuntime) -> Result<(), Fail> {
    let alloc = rt.alloc();
    let board = loaded(alloc, disk_of(alloc, &OLD_EMPTY, b"", &[])?)?;
    let disk = moves_bare(&rt, board);
    has_areas(&rt, &disk, &OLD_EMPTY, &BARE);
    Ok(())
}

// Where a stop within that call leaves the board, and after how many transitions. The checkpoint is made in
// calls 8 to 15, of which the last two open the new area, and the frame is stored in calls 16 to 19.
fn is_left_there(rt: &impl Abort, left: &Opened, frames: u64, call: u64, torn: Torn) {
    let is_old = matches!(torn, Torn::Old);
    let (place, next) = if call < 14 || call < 16 && is_old {
        (kept(Area::A, 1, frames), frames)
    } else if call < 18 || is_old {
        (kept(Area::B, 2, 0), frames)
    } else {
        (kept(Area::B, 2, 1), frames.saturating_add(1))
    };
    is_kept_at(rt, call, left.kept, place);
    is_number_at(rt, call, left.rows.next, next);
}

fn leaves_one(rt: &impl Abort, alloc: Global, disk: &MemoryDisk, frames: u64) -> Result<(), Fail> {
    is_number(rt, disk.clock(), CALLS + 12);
    for call in 8..20u64 {
        for torn in TORN {
            let left = left(rt, alloc, disk, call, torn)?;
            is_left_there(rt, &left, frames, call, torn);
        }
    }
    Ok(())
}

fn moved<D: Disk + Drop>(rt: &impl Abort, mut board: Board<D>, command: Command) -> D {
    is_number(rt, does(&mut board, command) as u64, 1);
    disk_in(board)
}

// A stop within each call by which an old area with so many frames is left.
fn stop_in(rt: &impl Abort, alloc: Global, area: &[u8], frames: u64) -> Result<(), Fail> {
    let command = desire_of(b"two")?;
    let board = loaded(alloc, disk_of(alloc, area, b"", &[])?)?;
    let disk = moved(rt, board, command);
    leaves_one(rt, alloc, &disk, frames)
}

#[test]
fn a_stop_while_an_old_board_moves_leaves_one_board(rt: HostRuntime) -> Result<(), Fail> {
    stop_in(&rt, rt.alloc(), &OLD_STORED, 1)?;
    stop_in(&rt, rt.alloc(), &OLD_EMPTY, 0)
}

fn fails(
    rt: &impl Abort,
    alloc: Global,
    area: &[u8],
    failing: &[u64],
    names: &[u8],
) -> Result<(), Fail> {
    let doubt = desire(b'm', 1)?;
    let offers = offers()?;
    let board = loaded(alloc, disk_of(alloc, area, b"", failing)?)?;
    let (mut disk, done) = doubts(rt, board, doubt, &offers);
    let mut all = vec![in alloc; done]?;
    all.extend_from_slice(names)?;
    leaves(rt, alloc, &mut disk, Area::B, &all)
}

#[test]
fn an_old_board_that_failed_to_move_goes_on(rt: HostRuntime) -> Result<(), Fail> {
    let alloc = rt.alloc();
    for call in CALLS + 1..CALLS + 13 {
        fails(&rt, alloc, &OLD_STORED, &[call], b"web")?;
        fails(&rt, alloc, &OLD_STORED, &[call, call + 1], b"web")?;
        fails(&rt, alloc, &OLD_EMPTY, &[call], b"")?;
    }
    Ok(())
}
