//! What stops leave of a disk in memory, and that it is within reach of what was done on it.
ghost use Rattle.bbs_model.specs.Valid.{IsValid};

use crate::asserts::{holds, holds_at};
use crate::making::{TORN, found_in};
use crate::reach::{acknowledged, is_reached};
use bbs_model::{Item, Rows};
use disk_trait::{Area, Disk, MemoryDisk, Torn};
use std::alloc::Global;
use std::process::Abort;
use std::test::Fail;

/// What was done on a board, and the disk's clock at the end of each item.
type Log<'a> = (&'a [Item], &'a [u64]);

// These rows are within reach, if the stop came within that call.
fn is_within_reach(
    rt: &impl Abort,
    alloc: Global,
    base: &Rows,
    done: Log<'_>,
    call: u64,
    found: &Rows,
) -> Result<(), Fail>
    requires { IsValid base.now }
{
    let (log, marks) = done;
    let least = acknowledged(log, marks, call.saturating_sub(1));
    let is_reached = is_reached(alloc, base, log, least, found)?;
    holds_at(rt, call, is_reached);
    Ok(())
}

fn shows(
    rt: &impl Abort,
    alloc: Global,
    base: &Rows,
    log: Log<'_>,
    call: u64,
    areas: (&[u8], &[u8]),
) -> Result<(), Fail>
    requires { IsValid base.now }
{
    let (a, b) = areas;
    let found = found_in(alloc, a, b)?;
    is_within_reach(rt, alloc, base, log, call, &found)
}

fn leaves(
    rt: &impl Abort,
    alloc: Global,
    base: &Rows,
    disk: &MemoryDisk,
    log: Log<'_>,
    stop: (u64, Torn),
) -> Result<(), Fail>
    requires { IsValid base.now }
{
    let (call, torn) = stop;
    holds(rt, call <= disk.clock());
    let (a, b) = disk.image(alloc, call, torn)?;
    shows(rt, alloc, base, log, call, (&a, &b))
}

fn leaves_each(
    rt: &impl Abort,
    alloc: Global,
    base: &Rows,
    disk: &MemoryDisk,
    log: Log<'_>,
    call: u64,
) -> Result<(), Fail>
    requires { IsValid base.now }
{
    for torn in TORN {
        leaves(rt, alloc, base, disk, log, (call, torn))?;
    }
    Ok(())
}

/// A stop within each call from this one on, and one behind the last, leaves a board that is within reach, whatever
/// becomes of what is pending.
pub fn leaves_within_reach(
    rt: &impl Abort,
    alloc: Global,
    base: &Rows,
    disk: &mut MemoryDisk,
    log: Log<'_>,
    first: u64,
) -> Result<(), Fail>
    requires { IsValid base.now }
{
    // A stop within a call that changes nothing is one behind the last.
    let _length = disk.len(Area::A);
    let end = disk.clock().saturating_add(1);
    for call in first..end {
        leaves_each(rt, alloc, base, disk, log, call)?;
    }
    Ok(())
}
