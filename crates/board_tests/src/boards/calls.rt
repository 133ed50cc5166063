//! Calls and their replies, where no device call fails.
use super::{
    CALLS, Step, desire, desire_of, done, has_stored, is_untouched, play, refused, rows_of, stored,
};
use crate::asserts::{holds, is_number};
use crate::bytes::{EMPTY, STORED};
use crate::making::{disk_of, update};
use bbs_model::{BoardRefusal, Item, Reply, Rows};
use disk_trait::{Area, MemoryDisk};
use std::alloc::Global;
use std::process::Abort;
use std::test::Fail;

pub fn are_items(rt: &impl Abort, log: &[Item], items: &[Item]) {
    assert_eq!(rt; log, items);
}

/// These items, and the clock at the end of the call of each.
pub fn has_logged(rt: &impl Abort, log: &[Item], items: &[Item], marks: &[u64], clocks: &[u64]) {
    are_items(rt, log, items);
    holds(rt, marks == clocks);
}

#[test]
fn a_refusal_and_a_same_touch_no_device(rt: HostRuntime) -> Result<(), Fail> {
    let alloc = rt.alloc();
    let exists = Step {
        by: 1,
        command: desire()?,
        end: refused(BoardRefusal::Exists, 0),
    };
    let same = Step {
        by: 2,
        command: update(5, b"web", 3)?,
        end: Ok(Reply::Same { place: 0 }),
    };
    let disk = disk_of(alloc, &STORED, b"", &[])?;
    let (disk, log, marks) = play(&rt, alloc, disk, &[exists, same])?;
    has_logged(&rt, &log, &[], &marks, &[]);
    is_untouched(&rt, &disk, &STORED);
    Ok(())
}

#[test]
fn a_transition_is_answered_with_its_place_and_stamp(rt: HostRuntime) -> Result<(), Fail> {
    let alloc = rt.alloc();
    let fewer = Step {
        by: 3,
        command: update(5, b"web", 2)?,
        end: done(0, 1),
    };
    let two = Step {
        by: 4,
        command: desire_of(b"two")?,
        end: done(1, 2),
    };
    let again = Step {
        end: refused(BoardRefusal::Exists, 2),
        ..two
    };
    let items = [Item::Done(3, fewer.command), Item::Done(4, two.command)];
    let disk = disk_of(alloc, &STORED, b"", &[])?;
    let (_disk, log, marks) = play(&rt, alloc, disk, &[fewer, two, again])?;
    has_logged(&rt, &log, &items, &marks, &[CALLS + 4, CALLS + 8]);
    Ok(())
}

fn has_one_row(rt: &impl Abort, rows: &Rows) {
    holds(rt, rows.desired.items().len() == 1);
    is_number(rt, rows.next, 1);
}

// The bytes of the desire, of which a load makes one row.
fn is_on(rt: &impl Abort, alloc: Global, disk: &MemoryDisk) -> Result<(), Fail> {
    has_stored(rt, disk);
    let rows = rows_of(alloc, disk.bytes(Area::A), disk.bytes(Area::B))?;
    has_one_row(rt, &rows);
    Ok(())
}

#[test]
fn what_was_acknowledged_is_on_the_disk(rt: HostRuntime) -> Result<(), Fail> {
    let alloc = rt.alloc();
    let disk = stored(&rt, alloc, disk_of(alloc, &EMPTY, b"", &[])?, 7)?;
    is_on(&rt, alloc, &disk)
}
