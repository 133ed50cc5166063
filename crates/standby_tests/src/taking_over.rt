//! Boards that become no pair, and a standby that takes over.
use crate::asserts::{are_items, holds};
use crate::closing::Played;
use crate::making::{CALLS, desire, disk_of, prepared};
use crate::playing::{Called, done, hand_over, play, refusal};
use bbs_model::{Command, Item, Reply};
use disk_trait::{Area, MemoryDisk};
use fenced_board::FencedReply;
use standby_board::{PairFault, StartRefusal};
use std::alloc::Global;
use std::process::Abort;
use std::test::Fail;

fn called(command: Command, place: u64) -> Called {
    Called {
        fence: 1,
        command,
        end: done(place, place),
    }
}

// A disk of what this one reads now.
fn copy_of(alloc: Global, disk: &MemoryDisk) -> Result<MemoryDisk, Fail> {
    disk_of(alloc, disk.bytes(Area::A), disk.bytes(Area::B), &[])
}

// The disks of a pair that desired these processes, one after the other.
fn disks_after(alloc: Global, calls: &[Called]) -> Result<(MemoryDisk, MemoryDisk), Fail> {
    let primary = prepared(alloc, &[])?;
    let standby = prepared(alloc, &[])?;
    let Some(played) = play(alloc, primary, standby, calls) else {
        return Err(Fail::from("they are a pair"));
    };
    let Played {
        primary,
        standby,
        log: _,
        copied: _,
        missing: _,
        ended: _,
    } = played;
    Ok((primary, standby))
}

#[test]
fn boards_whose_rows_differ_become_no_pair(rt: HostRuntime) -> Result<(), Fail> {
    let alloc = rt.alloc();
    let calls = [called(desire(b"web")?, 0), called(desire(b"two")?, 1)];
    let (primary, _) = disks_after(alloc, &calls[..1])?;
    let (_, standby) = disks_after(alloc, &calls)?;
    let why = refusal(alloc, copy_of(alloc, &primary)?, copy_of(alloc, &standby)?);
    let wanted = StartRefusal::Unequal {
        primary: 1,
        standby: 2,
    };
    holds(&rt, why == Some(wanted));
    Ok(())
}

// What is left of a pair, of whose standby these device calls fail: it makes these calls, and then its standby takes
// over and does the last command.
fn taken_over(
    alloc: Global,
    failing: &[u64],
    calls: &[Called],
    last: Command,
    answer: Reply,
) -> Result<Played<MemoryDisk, MemoryDisk>, Fail> {
    let stale = Ok(FencedReply::StaleFence { greatest: 2 });
    let next = Ok(FencedReply::Reply(answer));
    let primary = prepared(alloc, &[])?;
    let standby = prepared(alloc, failing)?;
    match hand_over(alloc, primary, standby, calls, (last, (stale, next))) {
        Some(played) => Ok(played),
        None => Err(Fail::from("it takes over")),
    }
}

fn has_gone_on(
    rt: &impl Abort,
    played: Played<MemoryDisk, MemoryDisk>,
    missing: Option<Command>,
    (old, new): (&[Item], &[Item]),
) {
    let Played {
        primary: _,
        standby: _,
        log,
        copied,
        missing: lacked,
        ended,
    } = played;
    holds(rt, ended);
    holds(rt, lacked == missing);
    are_items(rt, &log, old);
    are_items(rt, &copied, new);
}

#[test]
fn the_standby_takes_over_before_the_first_call(rt: HostRuntime) -> Result<(), Fail> {
    let commands = [desire(b"last")?];
    let answer = Reply::Ok { place: 0, stamp: 0 };
    let played = taken_over(rt.alloc(), &[], &[], commands[0], answer)?;
    has_gone_on(&rt, played, None, (&[], &[Item::Done(1, commands[0])]));
    Ok(())
}

#[test]
fn the_standby_takes_over_with_all_that_was_done(rt: HostRuntime) -> Result<(), Fail> {
    let commands = [desire(b"web")?, desire(b"two")?, desire(b"last")?];
    let calls = [called(commands[0], 0), called(commands[1], 1)];
    let answer = Reply::Ok { place: 2, stamp: 2 };
    let played = taken_over(rt.alloc(), &[], &calls, commands[2], answer)?;
    has_gone_on(
        &rt,
        played,
        None,
        (
            &[Item::Done(1, commands[0]), Item::Done(1, commands[1])],
            &[
                Item::Done(1, commands[0]),
                Item::Done(1, commands[1]),
                Item::Done(1, commands[2]),
            ],
        ),
    );
    Ok(())
}

// The last sync of the standby's second append fails, and the new board goes on behind that doubt.
#[test]
fn the_standby_takes_over_with_what_was_acknowledged(rt: HostRuntime) -> Result<(), Fail> {
    let commands = [desire(b"web")?, desire(b"two")?, desire(b"last")?];
    let behind = Called {
        fence: 1,
        command: commands[1],
        end: Err(PairFault::Behind { place: 1 }),
    };
    let calls = [called(commands[0], 0), behind];
    let answer = Reply::Ok { place: 2, stamp: 1 };
    let played = taken_over(rt.alloc(), &[CALLS + 8], &calls, commands[2], answer)?;
    has_gone_on(
        &rt,
        played,
        Some(commands[1]),
        (
            &[Item::Done(1, commands[0]), Item::Done(1, commands[1])],
            &[
                Item::Done(1, commands[0]),
                Item::Doubt(1, commands[1]),
                Item::Done(1, commands[2]),
            ],
        ),
    );
    Ok(())
}
