//! A stop of both disks at each device call of the standby, during two calls.
use crate::asserts::{holds, is_number, is_number_at};
use crate::closing::Played;
use crate::making::{CALLS, desire, next_in, prepared};
use crate::playing::{Called, done, play};
use disk_trait::{Area, Disk, MemoryDisk, Torn};
use std::alloc::Global;
use std::process::Abort;
use std::test::Fail;

// A stop within that device call leaves a board with so many transitions.
fn leaves(
    rt: &impl Abort,
    alloc: Global,
    disk: &MemoryDisk,
    (call, torn, next): (u64, Torn, u64),
) -> Result<(), Fail> {
    holds(rt, call <= disk.clock());
    let (a, b) = disk.image(alloc, call, torn)?;
    is_number_at(rt, call, next_in(alloc, &a, &b)?, next);
    Ok(())
}

// The body, its sync, the gate and its sync of one command, the number of which is told: the standby has it from the
// gate on, or not yet.
fn leaves_each(rt: &impl Abort, alloc: Global, disk: &MemoryDisk, before: u64) -> Result<(), Fail> {
    let first = CALLS.saturating_add(before.saturating_mul(4));
    let cases: [(u64, Torn, u64); 12] = [
        (1, Torn::Old, 0),
        (1, Torn::New, 0),
        (1, Torn::Byte(7), 0),
        (2, Torn::Old, 0),
        (2, Torn::New, 0),
        (2, Torn::Byte(7), 0),
        (3, Torn::Old, 0),
        (3, Torn::New, 1),
        (3, Torn::Byte(7), 1),
        (4, Torn::Old, 0),
        (4, Torn::New, 1),
        (4, Torn::Byte(7), 1),
    ];
    for (call, torn, more) in cases {
        let row = (
            first.saturating_add(call),
            torn,
            before.saturating_add(more),
        );
        leaves(rt, alloc, disk, row)?;
    }
    Ok(())
}

// While the standby stores a command, the primary has it: at the end of its own four calls.
fn primary_has(rt: &impl Abort, alloc: Global, disk: &MemoryDisk) -> Result<(), Fail> {
    for stored in 1..3 {
        let behind = CALLS + 4 * stored + 1;
        for torn in [Torn::Old, Torn::New, Torn::Byte(0), Torn::Byte(7)] {
            leaves(rt, alloc, disk, (behind, torn, stored))?;
        }
    }
    Ok(())
}

fn stops_are_beginnings(
    rt: &impl Abort,
    alloc: Global,
    primary: &mut MemoryDisk,
    standby: &mut MemoryDisk,
) -> Result<(), Fail> {
    is_number(rt, primary.clock(), CALLS + 8);
    is_number(rt, standby.clock(), CALLS + 8);
    // A stop within the next call is one after the last.
    holds(rt, primary.sync(Area::B).is_ok());
    holds(rt, standby.sync(Area::B).is_ok());
    primary_has(rt, alloc, primary)?;
    leaves_each(rt, alloc, standby, 0)?;
    leaves_each(rt, alloc, standby, 1)?;
    leaves(rt, alloc, standby, (CALLS + 9, Torn::Old, 2))
}

#[test]
fn a_stop_leaves_the_standby_one_command_behind_at_most(rt: HostRuntime) -> Result<(), Fail> {
    let alloc = rt.alloc();
    let calls = [
        Called {
            fence: 1,
            command: desire(b"web")?,
            end: done(0, 0),
        },
        Called {
            fence: 1,
            command: desire(b"two")?,
            end: done(1, 1),
        },
    ];
    let primary = prepared(alloc, &[])?;
    let standby = prepared(alloc, &[])?;
    let Some(played) = play(alloc, primary, standby, &calls) else {
        return Err(Fail::from("they are a pair"));
    };
    let Played {
        mut primary,
        mut standby,
        log: _,
        copied: _,
        missing: _,
        ended,
    } = played;
    holds(&rt, ended);
    stops_are_beginnings(&rt, alloc, &mut primary, &mut standby)
}
