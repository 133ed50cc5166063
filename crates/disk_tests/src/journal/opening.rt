//! What an opening reads of areas that were cut or changed, and of two areas.
use super::versions::OLD_DESIRED;
use super::{CALLS, DESIRED, EMPTY, MOST, ONE, Read, disk_of, fault_of, is_opened, opened};
use crate::asserts::{are_bytes, holds};
use bbs_journal::{LoadFault, LongHead, NotLoaded, load};
use disk_trait::{Area, Disk};
use std::alloc::Global;
use std::process::Abort;
use std::test::Fail;

#[test]
fn bytes_behind_the_closed_gate_are_free(rt: HostRuntime) -> Result<(), Fail> {
    let alloc = rt.alloc();
    let mut bytes = EMPTY.to_vec(alloc)?;
    bytes.extend_from_slice(&[0xff, 0xff])?;
    is_opened(&rt, 0, opened(alloc, &bytes, &[])?, Ok((0, None)));
    // The same where a whole frame stands behind the gate.
    bytes.truncate(52);
    bytes.extend_from_slice(&ONE)?;
    is_opened(&rt, 0, opened(alloc, &bytes, &[])?, Ok((0, None)));
    Ok(())
}

// How many frames a load finds, and how many device calls it makes.
fn counted<D: Disk + Drop>(alloc: Global, disk: D) -> Result<(usize, u64), LoadFault> {
    match load(alloc, disk, MOST) {
        Ok(loaded) => Ok((loaded.frames.len(), loaded.journal.clock())),
        Err((_, why)) => Err(fault_of(why)),
    }
}

#[test]
fn a_long_area_is_read_in_large_pieces(rt: HostRuntime) -> Result<(), Fail> {
    let alloc = rt.alloc();
    let mut frame = [7u8; 515];
    frame[..3].copy_from_slice(&[1, 2, 0]);
    let mut bytes = EMPTY[..51].to_vec(alloc)?;
    for _ in 0..400 {
        bytes.extend_from_slice(&frame)?;
    }
    bytes.push(0)?;
    // 206052 bytes: a piece of 65536 has 127 of these frames, so four are read.
    let disk = disk_of(alloc, &bytes, &[], &[])?;
    holds(&rt, counted(alloc, disk) == Ok((400, CALLS + 3)));
    Ok(())
}

// What is read of an area of one frame that is cut to so many bytes. The frame stands behind so many.
fn cut_at(n: usize, front: u64) -> Read {
    let at = n as u64;
    if n < 11 {
        return Err(LoadFault::NotABoard { area: Area::A });
    }
    if at < front {
        return Err(LoadFault::Damaged { area: Area::A, at });
    }
    // The frame takes 33 bytes, and the closed gate behind it one.
    match at - front {
        0..=32 => Ok((0, Some(front))),
        33 => Ok((1, Some(at))),
        _ => Ok((1, None)),
    }
}

fn is_told_at_each_cut(
    rt: &impl Abort,
    alloc: Global,
    area: &[u8],
    front: u64,
) -> Result<(), Fail> {
    for n in 0..area.len() {
        is_opened(
            rt,
            n as u64,
            opened(alloc, &area[..n], &[])?,
            cut_at(n, front),
        );
    }
    Ok(())
}

#[test]
fn a_cut_area_is_told_by_its_length_or_its_last_frame(rt: HostRuntime) -> Result<(), Fail> {
    let alloc = rt.alloc();
    is_told_at_each_cut(&rt, alloc, &DESIRED, 51)?;
    is_told_at_each_cut(&rt, alloc, &OLD_DESIRED, 47)?;
    is_opened(&rt, 85, opened(alloc, &DESIRED, &[])?, Ok((1, None)));
    is_opened(&rt, 81, opened(alloc, &OLD_DESIRED, &[])?, Ok((1, None)));
    Ok(())
}

#[test]
fn a_changed_byte_is_told_where_it_counts(rt: HostRuntime) -> Result<(), Fail> {
    let not_ours = LoadFault::NotABoard { area: Area::A };
    let generation = LoadFault::Damaged {
        area: Area::A,
        at: 11,
    };
    let table: [(usize, u8, Read); 16] = [
        (0, 0, Err(not_ours)),
        (0, 9, Ok((1, None))),
        (1, 9, Err(not_ours)),
        (9, 1, Err(not_ours)),
        (10, 0, Err(not_ours)),
        (10, 1, Ok((1, None))),
        (10, 3, Err(not_ours)),
        (18, 0, Err(generation)),
        (18, 2, Ok((1, None))),
        (18, 3, Err(generation)),
        (
            22,
            99,
            Err(LoadFault::Damaged {
                area: Area::A,
                at: 85,
            }),
        ),
        (51, 7, Ok((1, None))),
        (53, 0, Ok((0, Some(51)))),
        (52, 3, Ok((0, Some(51)))),
        (54, 99, Ok((1, None))),
        (84, 1, Ok((1, Some(84)))),
    ];
    for (place, byte, want) in table {
        let mut bytes = DESIRED;
        if place < 85 {
            bytes[place] = byte;
        }
        is_opened(&rt, place as u64, opened(rt.alloc(), &bytes, &[])?, want);
    }
    Ok(())
}

#[test]
fn of_two_areas_the_newer_is_read(rt: HostRuntime) -> Result<(), Fail> {
    let alloc = rt.alloc();
    // Generation 2 over a head that begins with 1.
    let mut newer = EMPTY;
    newer[18] = 2;
    newer[30] = 1;
    let second = LoadFault::Damaged {
        area: Area::B,
        at: 11,
    };
    let foreign = LoadFault::NotABoard { area: Area::B };
    let table: [(&[u8], &[u8], Read); 7] = [
        (&DESIRED, &newer, Ok((0, None))),
        (&newer, &DESIRED, Ok((0, None))),
        (&DESIRED, &DESIRED, Err(second)),
        (&DESIRED, &[1, 2], Err(foreign)),
        (&DESIRED, &[0, 2], Ok((1, None))),
        (&DESIRED, &[2], Ok((1, None))),
        (&[0; 52], &DESIRED, Ok((1, None))),
    ];
    for (row, (a, b, want)) in table.iter().enumerate() {
        is_opened(&rt, row as u64, opened(alloc, a, b)?, *want);
    }
    Ok(())
}

// The head that is too long for a load with room for so many bytes of it.
fn long_head<D: Disk + Drop>(alloc: Global, disk: D, most: u32) -> Option<LongHead> {
    match load(alloc, disk, most) {
        Ok(_) => None,
        Err((_, why)) => match why {
            NotLoaded::Fault(_) => None,
            NotLoaded::LongHead(long) => Some(long),
        },
    }
}

fn is_cut(rt: &impl Abort, long: Option<LongHead>, begin: &[u8]) {
    match long {
        Some(long) => {
            holds(rt, long.area == Area::A && long.version == 2);
            are_bytes(rt, &long.begin, begin);
        }
        None => holds(rt, false),
    }
}

#[test]
fn of_a_head_that_is_too_long_no_more_is_read_than_was_allowed(
    rt: HostRuntime,
) -> Result<(), Fail> {
    let alloc = rt.alloc();
    let cut = long_head(alloc, disk_of(alloc, &EMPTY, &[], &[])?, 27);
    is_cut(&rt, cut, &[0; 27]);
    let whole = long_head(alloc, disk_of(alloc, &EMPTY, &[], &[])?, 28);
    holds(&rt, whole.is_none());
    Ok(())
}
