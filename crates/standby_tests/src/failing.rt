//! Each device call of either disk failing, alone and with the next one, over three calls.
use crate::asserts::holds_at;
use crate::closing::{Played, follows};
use crate::making::{CALLS, desire, prepared};
use crate::playing::{Called, End, done, play};
use standby_board::PairFault;
use std::alloc::Global;
use std::process::Abort;
use std::test::Fail;

const fn behind(place: u64) -> End {
    Err(PairFault::Behind { place })
}

const fn starved(place: u64) -> End {
    Err(PairFault::StandbyDisk { place })
}

const fn doubted(place: u64) -> End {
    Err(PairFault::Disk { place })
}

// What three calls are answered where this append of the standby, from 0, fails, and where the next try fails too.
fn of_standby(append: u64, twice: bool) -> [End; 3] {
    match (append, twice) {
        (0, false) => [behind(0), done(1, 1), done(2, 2)],
        (0, true) => [behind(0), starved(1), done(1, 1)],
        (1, false) => [done(0, 0), behind(1), done(2, 2)],
        (1, true) => [done(0, 0), behind(1), starved(2)],
        _ => [done(0, 0), done(1, 1), behind(2)],
    }
}

// The same of the primary.
fn of_primary(append: u64, twice: bool) -> [End; 3] {
    match (append, twice) {
        (0, false) => [doubted(0), done(1, 0), done(2, 1)],
        (0, true) => [doubted(0), doubted(1), done(2, 0)],
        (1, false) => [done(0, 0), doubted(1), done(2, 1)],
        (1, true) => [done(0, 0), doubted(1), doubted(2)],
        _ => [done(0, 0), done(1, 1), doubted(2)],
    }
}

// Three processes are desired while these device calls fail, of the primary and of the standby.
fn ends_at(
    rt: &impl Abort,
    alloc: Global,
    at: u64,
    (primary, standby): (&[u64], &[u64]),
    ends: &[End; 3],
) -> Result<(), Fail> {
    let calls = [
        Called {
            fence: 1,
            command: desire(b"a")?,
            end: ends[0],
        },
        Called {
            fence: 1,
            command: desire(b"b")?,
            end: ends[1],
        },
        Called {
            fence: 1,
            command: desire(b"c")?,
            end: ends[2],
        },
    ];
    let primary = prepared(alloc, primary)?;
    let standby = prepared(alloc, standby)?;
    let Some(played) = play(alloc, primary, standby, &calls) else {
        return Err(Fail::from("they are a pair"));
    };
    let Played {
        primary: _,
        standby: _,
        log,
        copied,
        missing,
        ended,
    } = played;
    holds_at(rt, at, ended);
    holds_at(rt, at, follows(&log, &copied, missing));
    Ok(())
}

// The gate's write and its sync, the third and fourth call of an append, are answered by closing it at once, so
// that the next call is spared.
#[test]
fn a_standby_that_fails_is_one_command_behind_at_most(rt: HostRuntime) -> Result<(), Fail> {
    let alloc = rt.alloc();
    for append in 0..3 {
        for call in 1..5 {
            let at = CALLS + 4 * append + call;
            ends_at(&rt, alloc, at, (&[], &[at]), &of_standby(append, false))?;
            ends_at(
                &rt,
                alloc,
                at,
                (&[], &[at, at + 1]),
                &of_standby(append, call < 3),
            )?;
        }
    }
    Ok(())
}

#[test]
fn a_primary_that_fails_leaves_the_standby_alone(rt: HostRuntime) -> Result<(), Fail> {
    let alloc = rt.alloc();
    for append in 0..3 {
        for call in 1..5 {
            let at = CALLS + 4 * append + call;
            ends_at(&rt, alloc, at, (&[at], &[]), &of_primary(append, false))?;
            ends_at(
                &rt,
                alloc,
                at,
                (&[at, at + 1], &[]),
                &of_primary(append, call < 3),
            )?;
        }
    }
    Ok(())
}
