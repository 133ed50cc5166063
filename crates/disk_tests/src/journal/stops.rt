//! A stop within each device call of an append.
use super::{CALLS, empty_disk, empty_journal, leaves};
use crate::asserts::holds;
use disk_trait::{Area, Disk, MemoryDisk, Torn};
use std::alloc::Global;
use std::process::Abort;
use std::test::Fail;

fn appended_twice<D: Disk + Drop>(rt: &impl Abort, alloc: Global, disk: D) -> Result<D, Fail> {
    let mut journal = empty_journal(rt, alloc, disk)?;
    holds(rt, journal.append(b"one").is_ok());
    holds(rt, journal.append(b"two").is_ok());
    Ok(journal.into_disk())
}

fn leaves_one_or_both(rt: &impl Abort, alloc: Global, disk: &mut MemoryDisk) -> Result<(), Fail> {
    // A stop within the next call is one after the last of the append.
    holds(rt, disk.sync(Area::B).is_ok());
    // The write of the body, its sync, the write of the gate, its sync, and after them.
    let table = [
        (Torn::Old, [false, false, false, false, true]),
        (Torn::New, [false, false, true, true, true]),
        (Torn::Byte(0), [false, false, false, false, true]),
        (Torn::Byte(1), [false, false, true, true, true]),
        (Torn::Byte(7), [false, false, true, true, true]),
    ];
    for (torn, row) in table {
        for (call, there) in row.iter().enumerate() {
            let want: &[u8] = if *there { b"one two " } else { b"one " };
            leaves(rt, alloc, disk, (CALLS + 5 + call as u64, torn), want)?;
        }
    }
    Ok(())
}

#[test]
fn a_stop_within_an_append_leaves_the_frames_before_or_one_more(
    rt: HostRuntime,
) -> Result<(), Fail> {
    let alloc = rt.alloc();
    let mut disk = appended_twice(&rt, alloc, empty_disk(alloc, &[])?)?;
    leaves_one_or_both(&rt, alloc, &mut disk)
}
