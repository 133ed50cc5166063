//! Boards over any disk, and what they list beside what is worked out of all their rows.
ghost use Rattle.bbs_model.specs.Valid.{IsValid};

use crate::commands::a_command;
use crate::dice::Dice;
use crate::names::Names;
use bbs_board::{Board, Closed, load, prepare};
use bbs_model::{CallFault, Command, Reply, Rows};
use board_port::uncounted_work;
use convergence::work_of;
use crash_backoff::Moment;
use disk_trait::Disk;
use std::alloc::Global;
use std::test::Fail;

// The board of a disk that must hold one.
pub(crate) fn loaded<D: Disk + Drop>(alloc: Global, disk: D) -> Result<Board<D>, Fail> {
    match load(alloc, disk) {
        Ok(board) => Ok(board),
        Err((_, fault)) => Err(Fail::from(fault)),
    }
}

// The board of an empty disk, without rows.
pub(crate) fn begun<D: Disk + Drop>(alloc: Global, mut disk: D) -> Result<Board<D>, Fail> {
    prepare(&mut disk)?;
    loaded(alloc, disk)
}

// The disk of a board, which is closed.
pub(crate) fn disk_in<D: Disk + Drop>(board: Board<D>) -> D {
    let Closed {
        disk,
        log: _,
        marks: _,
    } = board.close();
    disk
}

// One of the commands, if there are any.
fn one_of(dice: &mut Dice, commands: &[Command]) -> Option<Command> {
    let number = dice.roll(8) as usize;
    match commands.get(number) {
        Some(command) => Some(*command),
        None => commands.first().copied(),
    }
}

// A command that convergence asks at a moment, if it asks any.
fn asked_command<D: Disk>(
    alloc: Global,
    board: &Board<D>,
    dice: &mut Dice,
    now: Moment,
) -> Option<Command> {
    match uncounted_work(board, alloc, now) {
        Err(_) => None,
        Ok(list) => one_of(dice, list.items()),
    }
}

// A command by chance, some seconds after that moment; none where memory ran out.
fn chosen_command<D: Disk>(
    alloc: Global,
    board: &Board<D>,
    dice: &mut Dice,
    n: &Names,
    at: u32,
) -> Option<Command> {
    match board.rows(alloc) {
        Err(_) => None,
        Ok(rows) => Some(a_command(dice, &rows, n, at)),
    }
}

// One by chance, or one that convergence asks.
fn next_command<D: Disk>(
    alloc: Global,
    board: &Board<D>,
    dice: &mut Dice,
    n: &Names,
    at: u32,
) -> Option<Command> {
    if dice.roll(4) == 0 {
        match asked_command(alloc, board, dice, Moment(at)) {
            Some(command) => Some(command),
            None => chosen_command(alloc, board, dice, n, at),
        }
    } else {
        chosen_command(alloc, board, dice, n, at)
    }
}

fn is_done(end: &Result<Reply, CallFault>) -> bool {
    match end {
        Ok(Reply::Ok { .. }) => true,
        Ok(_) => false,
        Err(_) => false,
    }
}

// Does a command, and tells whether it was legal.
fn go<D: Disk>(board: &mut Board<D>, command: &Command) -> bool {
    let end = board.call(1, *command);
    is_done(&end)
}

// Does a command by chance, and tells it and whether it was legal.
pub(crate) fn step<D: Disk>(
    alloc: Global,
    board: &mut Board<D>,
    dice: &mut Dice,
    n: &Names,
    at: u32,
) -> Option<(Command, bool)> {
    let command = next_command(alloc, board, dice, n, at)?;
    let is_done = go(board, &command);
    Some((command, is_done))
}

// Whether the board lists at a moment what is worked out of its rows.
pub(crate) fn lists_at<D: Disk>(alloc: Global, board: &Board<D>, rows: &Rows, at: u64) -> bool
    requires { IsValid rows.now }
{
    let now = Moment(at.min(u32::MAX as u64) as u32);
    match uncounted_work(board, alloc, now) {
        Err(_) => false,
        Ok(list) => match work_of(alloc, rows, now) {
            Err(_) => false,
            Ok(work) => list.items() == work.items(),
        },
    }
}
