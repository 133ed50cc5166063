//! A disk that fails in the call of a port: a doubt, which takes a place and tells nothing.
use super::{CALLS, begin, close};
use crate::asserts::{is_end, is_number};
use crate::making::desire;
use bbs_model::{CallFault, Port, Reply};
use board_port::SolePort;
use event_hub::Subscription;
use std::alloc::Global;
use std::process::Abort;
use std::test::Fail;

// The first call meets a fault, and the same call again is the first transition.
fn call_twice<P: Port>(rt: &impl Abort, port: &mut P) -> Result<(), Fail> {
    let first = port.call(desire(b'w', 3)?);
    is_end(rt, first, Err(CallFault::Disk { place: 0 }));
    let again = port.call(desire(b'w', 3)?);
    is_end(rt, again, Ok(Reply::Ok { place: 1, stamp: 0 }));
    is_number(rt, port.place(), 2);
    Ok(())
}

fn fails_at(rt: &impl Abort, alloc: Global, call: u64) -> Result<(), Fail> {
    let mut board = begin(alloc, &[call])?;
    let mut port = SolePort {
        board: &mut board,
        by: 1,
    };
    let end = call_twice(rt, &mut port);
    close(board);
    end
}

// An append takes four calls.
#[test]
fn each_device_call_that_fails_leaves_a_doubt(rt: HostRuntime) -> Result<(), Fail> {
    for call in CALLS + 1..CALLS + 5 {
        fails_at(&rt, rt.alloc(), call)?;
    }
    Ok(())
}

// How many changes two polls of one item hear, and the places after them.
fn hears_of_the_second<P: Port>(rt: &impl Abort, alloc: Global, port: &mut P) -> Result<(), Fail> {
    call_twice(rt, port)?;
    let mut reader = Subscription::new(0);
    is_number(rt, reader.poll(alloc, port, 1)?.len() as u64, 0);
    is_number(rt, reader.at(), 1);
    is_number(rt, reader.poll(alloc, port, 1)?.len() as u64, 1);
    is_number(rt, reader.at(), 2);
    Ok(())
}

#[test]
fn a_doubt_takes_a_place_and_tells_nothing(rt: HostRuntime) -> Result<(), Fail> {
    let alloc = rt.alloc();
    let mut board = begin(alloc, &[CALLS + 1])?;
    let mut port = SolePort {
        board: &mut board,
        by: 1,
    };
    let end = hears_of_the_second(&rt, alloc, &mut port);
    close(board);
    end
}
