//! What the tables begin with: disks in memory, boards over them, and commands.
ghost use Rattle.std.specs.Prelude.{IfOk};
ghost use Rattle.bbs_model.specs.Valid.{IsValid};

use bbs_board::{Board, Closed, load};
use bbs_model::{Command, Op, Reply, Rows};
use crash_backoff::Moment;
use diego_names::Name;
use disk_trait::{Disk, Torn};
use lrp_records::Desired;
use run_trials::disk_of;
use std::alloc::Global;
use std::test::Fail;

/// What a stop leaves in the ranges that were pending. A byte of 7 is an open gate, too.
pub const TORN: [Torn; 4] = [Torn::Old, Torn::New, Torn::Byte(0), Torn::Byte(7)];

/// The board of a disk that must hold one.
pub fn loaded<D: Disk + Drop>(alloc: Global, disk: D) -> Result<Board<D>, Fail> {
    match load(alloc, disk) {
        Ok(board) => Ok(board),
        Err((_, fault)) => Err(Fail::from(fault)),
    }
}

/// Whether each command was done.
pub fn does_each<D: Disk>(board: &mut Board<D>, commands: &[Command]) -> bool {
    let mut are_done = true;
    for command in commands {
        are_done = matches!(board.call(1, *command), Ok(Reply::Ok { .. })) && are_done;
    }
    are_done
}

/// The disk of a board, which is closed.
pub fn disk_in<D: Disk + Drop>(board: Board<D>) -> D {
    let Closed {
        disk,
        log: _,
        marks: _,
    } = board.close();
    disk
}

fn rows_in<D: Disk>(alloc: Global, board: &Board<D>) -> Result<Rows, Fail>
    ensures { IfOk result (λ rows. IsValid rows) }
{
    Ok(board.rows(alloc)?)
}

/// The rows of the board of these areas.
pub fn found_in(alloc: Global, a: &[u8], b: &[u8]) -> Result<Rows, Fail>
    ensures { IfOk result (λ rows. IsValid rows) }
{
    let board = loaded(alloc, disk_of(alloc, a, b, &[])?)?;
    rows_in(alloc, &board)
}

/// A client wants so many instances of a process, at second 0.
pub fn desire(process: &[u8], instances: u32) -> Result<Command, Fail> {
    let desired = Desired {
        process: Name::read(process)?,
        domain: Name::read(b"apps")?,
        instances,
        memory: 64,
        disk: 128,
        tag: None,
        route: None,
        port: 8080,
    };
    Ok(Command {
        now: Moment(0),
        op: Op::Desire { desired },
    })
}
