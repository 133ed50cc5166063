//! A board that threads share, by functions over any disk that may be sent to a thread.
mod sharing;

use crate::asserts::{holds, is_end};
use crate::making::{begun, desire, disk_of};
use bbs_board::{Board, Closed};
use bbs_model::{BoardRefusal, Item, Reply};
use disk_trait::{Disk, MemoryDisk};
use sharing::{called, called_twice};
use std::alloc::Global;
use std::process::Abort;
use std::test::Fail;

// An empty board in memory.
fn begin(alloc: Global) -> Result<Board<MemoryDisk>, Fail> {
    begun(alloc, disk_of(alloc, b"", b"", &[])?)
}

// The log of a board, which is closed.
fn log_in<D: Disk + Drop>(board: Board<D>) -> Vec<Item> {
    let Closed {
        disk: _,
        log,
        marks: _,
    } = board.close();
    log
}

fn is_in_some_order(rt: &impl Abort, log: &[Item], a: Item, b: Item) {
    holds(rt, log == [a, b].as_slice() || log == [b, a].as_slice());
}

#[test]
fn two_threads_desire_a_process_each(rt: HostRuntime) -> Result<(), Fail> {
    let commands = [desire(b'a', 1)?, desire(b'b', 1)?];
    let board = called(&rt, rt.alloc(), begin(rt.alloc())?, &commands).ok_or("out of memory")?;
    let log = log_in(board);
    is_in_some_order(
        &rt,
        &log,
        Item::Done(1, commands[0]),
        Item::Done(2, commands[1]),
    );
    Ok(())
}

#[test]
fn a_board_that_nobody_called_comes_back_as_it_was(rt: HostRuntime) -> Result<(), Fail> {
    let board = called(&rt, rt.alloc(), begin(rt.alloc())?, &[]).ok_or("out of memory")?;
    let log = log_in(board);
    holds(&rt, log.is_empty());
    Ok(())
}

#[test]
fn who_met_the_first_is_refused_behind_its_item(rt: HostRuntime) -> Result<(), Fail> {
    let commands = [desire(b'a', 1)?];
    let board = begin(rt.alloc())?;
    let answer = called_twice(&rt, rt.alloc(), board, &commands).ok_or("out of memory")?;
    let refused = Ok(Reply::Refused {
        why: BoardRefusal::Exists,
        place: 1,
    });
    is_end(&rt, answer, refused);
    Ok(())
}
