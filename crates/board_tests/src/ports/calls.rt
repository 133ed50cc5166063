//! Room that is had before calls, and two callers one after the other.
use super::{begin, close, desire_each};
use crate::asserts::{holds, is_end, is_number};
use crate::making::desire;
use bbs_board::Board;
use bbs_model::{BoardRefusal, Item, Port, Reply};
use board_port::SolePort;
use disk_trait::Disk;
use std::alloc::Global;
use std::process::Abort;
use std::test::Fail;

fn desire_over<D: Disk>(
    rt: &impl Abort,
    board: &mut Board<D>,
    by: u32,
    letters: &[u8],
) -> Result<(), Fail> {
    let mut port = SolePort { board, by };
    desire_each(rt, &mut port, letters)
}

#[test]
fn ten_calls_find_the_room_that_was_made_for_them(rt: HostRuntime) -> Result<(), Fail> {
    let alloc = rt.alloc();
    let mut board = begin(alloc, &[])?;
    let has_room = board.reserve(10).is_ok();
    let end = desire_over(&rt, &mut board, 1, b"abcdefghij");
    close(board);
    holds(&rt, has_room);
    end
}

#[test]
fn room_that_no_memory_has_is_refused_and_the_board_goes_on(rt: HostRuntime) -> Result<(), Fail> {
    let alloc = rt.alloc();
    let mut board = begin(alloc, &[])?;
    let is_refused = board.reserve(u32::MAX).is_err();
    let end = desire_over(&rt, &mut board, 1, b"ab");
    close(board);
    holds(&rt, is_refused);
    end
}

// What an earlier caller did is refused to the next, and its own item comes behind.
fn follow<P: Port>(rt: &impl Abort, alloc: Global, port: &mut P) -> Result<(), Fail> {
    let heard = port.events(alloc, 0, 10)?;
    is_number(rt, heard.events.len() as u64, 1);
    is_number(rt, heard.upto, 1);
    let refused = Ok(Reply::Refused {
        why: BoardRefusal::Exists,
        place: 1,
    });
    is_end(rt, port.call(desire(b'a', 3)?), refused);
    desire_each(rt, port, b"b")
}

fn follow_over<D: Disk>(
    rt: &impl Abort,
    alloc: Global,
    board: &mut Board<D>,
    by: u32,
) -> Result<(), Fail> {
    let mut port = SolePort { board, by };
    follow(rt, alloc, &mut port)
}

// Each caller's items stand under its number.
fn call_by_turns<D: Disk>(
    rt: &impl Abort,
    alloc: Global,
    board: &mut Board<D>,
) -> Result<(), Fail> {
    desire_over(rt, board, 1, b"a")?;
    follow_over(rt, alloc, board, 2)?;
    desire_over(rt, board, 1, b"c")?;
    let items = [
        Item::Done(1, desire(b'a', 3)?),
        Item::Done(2, desire(b'b', 3)?),
        Item::Done(1, desire(b'c', 3)?),
    ];
    holds(rt, board.log() == items.as_slice());
    Ok(())
}

#[test]
fn callers_one_after_the_other_have_one_log(rt: HostRuntime) -> Result<(), Fail> {
    let alloc = rt.alloc();
    let mut board = begin(alloc, &[])?;
    let end = call_by_turns(&rt, alloc, &mut board);
    close(board);
    end
}
