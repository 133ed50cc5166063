//! What a port tells of the rows.
use super::{begin, close, desire_each, done, make};
use crate::asserts::{are_commands, holds, is_end, is_number};
use crate::making::{desire, update, wanted};
use bbs_model::{BoardRefusal, Port, Reply};
use board_port::SolePort;
use crash_backoff::Moment;
use std::alloc::Global;
use std::process::Abort;
use std::test::Fail;

// What convergence asks at the moment 1: first of three instances that nobody made, and then of nothing.
fn asks_for_three<P: Port>(rt: &impl Abort, alloc: Global, port: &mut P) -> Result<(), Fail> {
    desire_each(rt, port, b"w")?;
    let makes = [make(b'w', 0)?, make(b'w', 1)?, make(b'w', 2)?];
    let work = port.work(alloc, Moment(1))?;
    are_commands(rt, work.items(), &makes);
    for (number, command) in makes.iter().enumerate() {
        is_end(
            rt,
            port.call(*command),
            done((number as u64).saturating_add(1)),
        );
    }
    holds(rt, port.work(alloc, Moment(1))?.is_empty());
    Ok(())
}

#[test]
fn a_desired_process_asks_for_its_instances(rt: HostRuntime) -> Result<(), Fail> {
    let alloc = rt.alloc();
    let mut board = begin(alloc, &[])?;
    let mut port = SolePort {
        board: &mut board,
        by: 1,
    };
    let end = asks_for_three(&rt, alloc, &mut port);
    close(board);
    end
}

// The place counts what was done, and neither what is refused nor what is so already.
fn counts_what_was_done<P: Port>(rt: &impl Abort, port: &mut P) -> Result<(), Fail> {
    is_number(rt, port.place(), 0);
    desire_each(rt, port, b"w")?;
    is_number(rt, port.place(), 1);
    let exists = BoardRefusal::Exists;
    let refused = Ok(Reply::Refused {
        why: exists,
        place: 1,
    });
    is_end(rt, port.call(desire(b'w', 3)?), refused);
    let update = update(5, b"w", 3)?;
    is_end(rt, port.call(update), Ok(Reply::Same { place: 1 }));
    is_number(rt, port.place(), 1);
    Ok(())
}

#[test]
fn the_place_counts_what_was_done(rt: HostRuntime) -> Result<(), Fail> {
    let alloc = rt.alloc();
    let mut board = begin(alloc, &[])?;
    let mut port = SolePort {
        board: &mut board,
        by: 1,
    };
    let end = counts_what_was_done(&rt, &mut port);
    close(board);
    end
}

// The rows are those that the calls made, in order of their names.
fn has_what_was_done<P: Port>(rt: &impl Abort, alloc: Global, port: &mut P) -> Result<(), Fail> {
    desire_each(rt, port, b"ba")?;
    let rows = port.rows(alloc)?;
    let desired = [wanted(b"a", b"a", 3)?, wanted(b"b", b"b", 3)?];
    holds(rt, rows.desired.items() == desired.as_slice());
    holds(rt, rows.actual.is_empty());
    is_number(rt, rows.next, 2);
    Ok(())
}

#[test]
fn the_rows_are_those_that_calls_made(rt: HostRuntime) -> Result<(), Fail> {
    let alloc = rt.alloc();
    let mut board = begin(alloc, &[])?;
    let mut port = SolePort {
        board: &mut board,
        by: 1,
    };
    let end = has_what_was_done(&rt, alloc, &mut port);
    close(board);
    end
}
