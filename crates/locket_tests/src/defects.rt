//! Where the first defect of a lock journal is told.
use crate::bytes::{EMPTY, LIVED, OF_A_BOARD, changed, joined};
use crate::making::disk_of;
use bbs_journal::LoadFault;
use disk_trait::{Area, MemoryDisk};
use locket::{LockState, load_from_memory};
use std::alloc::Global;
use std::process::Abort;
use std::test::Fail;

// What a load of area A has to tell: no board, a defect at the end of the area or at this place, or a locket after so
// many changes.
#[derive(Clone, Copy, Debug, PartialEq)]
enum Told {
    NoBoard,
    AtEnd,
    Damaged(u64),
    Opened(u32),
}

// How many changes a locket has made, or why it wasn't loaded.
type Opening = Result<u32, LoadFault>;

fn opening_of(alloc: Global, disk: MemoryDisk) -> Opening {
    match load_from_memory(alloc, disk) {
        Ok(locket) => {
            let state: LockState = locket.state();
            Ok(state.count)
        }
        Err((_, fault)) => Err(fault),
    }
}

fn wanted(len: usize, told: Told) -> Opening {
    let area = Area::A;
    match told {
        Told::NoBoard => Err(LoadFault::NotABoard { area }),
        Told::AtEnd => Err(LoadFault::Damaged {
            area,
            at: len as u64,
        }),
        Told::Damaged(at) => Err(LoadFault::Damaged { area, at }),
        Told::Opened(count) => Ok(count),
    }
}

fn is_opening(rt: &impl Abort, row: (usize, u8), got: Opening, wanted: Opening) {
    assert_eq!(rt; got, wanted, "at {} with {}", row.0, row.1);
}

fn is_told(
    rt: &impl Abort,
    alloc: Global,
    row: (usize, u8),
    area: &[u8],
    told: Told,
) -> Result<(), Fail> {
    let got = opening_of(alloc, disk_of(alloc, area, b"", &[])?);
    is_opening(rt, row, got, wanted(area.len(), told));
    Ok(())
}

// The lengths from one to another, and what all of them are told.
type Cut = (usize, usize, Told);

fn cut_to_each(rt: &impl Abort, alloc: Global, line: &Cut) -> Result<(), Fail> {
    let (from, to, told) = *line;
    for len in from..to.saturating_add(1) {
        let front = LIVED.get(..len).ok_or("the area is longer")?;
        is_told(rt, alloc, (len, 0), front, told)?;
    }
    Ok(())
}

#[test]
fn a_lock_journal_that_is_cut_short_is_told_at_its_place(rt: HostRuntime) -> Result<(), Fail> {
    let lines: [Cut; 10] = [
        // Not all of the magic and the version, and of the header and the head.
        (0, 10, Told::NoBoard),
        (11, 50, Told::AtEnd),
        // No gate, and frames that aren't whole behind an open one.
        (51, 68, Told::Damaged(51)),
        (69, 69, Told::Damaged(69)),
        (70, 94, Told::Damaged(69)),
        (95, 95, Told::Damaged(95)),
        (96, 116, Told::Damaged(95)),
        // Whole frames without the closed gate behind them.
        (117, 117, Told::Damaged(117)),
        (118, 118, Told::Opened(3)),
        (118, 118, Told::Opened(3)),
    ];
    for line in lines {
        cut_to_each(&rt, rt.alloc(), &line)?;
    }
    Ok(())
}

// The values that each byte is changed to.
const VALUES: [u8; 5] = [0, 1, 7, 127, 255];

// The places from one to another, and what is told where a byte there has each of these values.
type Change = (usize, usize, [Told; 5]);

fn change_one(
    rt: &impl Abort,
    alloc: Global,
    (place, value): (usize, u8),
    told: Told,
) -> Result<(), Fail> {
    if LIVED.get(place) == Some(&value) {
        return Ok(());
    }
    let area = changed(alloc, &LIVED, place, value)?;
    is_told(rt, alloc, (place, value), &area, told)
}

fn change_place(rt: &impl Abort, alloc: Global, place: usize, told: [Told; 5]) -> Result<(), Fail> {
    for (value, told) in VALUES.iter().zip(told.iter()) {
        change_one(rt, alloc, (place, *value), *told)?;
    }
    Ok(())
}

fn change_each(rt: &impl Abort, alloc: Global, lines: &[Change]) -> Result<(), Fail> {
    for line in lines {
        for place in line.0..line.1.saturating_add(1) {
            change_place(rt, alloc, place, line.2)?;
        }
    }
    Ok(())
}

const OPENED: Told = Told::Opened(3);

#[test]
fn a_changed_header_or_head_is_told_at_its_place(rt: HostRuntime) -> Result<(), Fail> {
    let none = [Told::NoBoard; 5];
    let eleven = [Told::Damaged(11); 5];
    let head = [Told::Damaged(23); 5];
    let lines: [Change; 9] = [
        // A closed gate, and another open one.
        (0, 0, [Told::NoBoard, OPENED, OPENED, OPENED, OPENED]),
        (1, 9, none),
        // Version 1 has another head.
        (
            10,
            10,
            [
                Told::NoBoard,
                Told::Damaged(23),
                Told::NoBoard,
                Told::NoBoard,
                Told::NoBoard,
            ],
        ),
        (11, 17, eleven),
        (18, 18, eleven),
        // A head that is longer than the area, and one that is too short.
        (19, 21, [Told::AtEnd; 5]),
        (
            22,
            22,
            [
                Told::Damaged(23),
                Told::Damaged(23),
                Told::Damaged(23),
                Told::AtEnd,
                Told::AtEnd,
            ],
        ),
        (23, 49, head),
        (50, 50, head),
    ];
    change_each(&rt, rt.alloc(), &lines)
}

#[test]
fn a_changed_first_command_is_told_at_the_first_wrong_gate(rt: HostRuntime) -> Result<(), Fail> {
    let first = [Told::Damaged(51); 5];
    let second = [Told::Damaged(69); 5];
    let (at, behind) = (Told::Damaged(51), Told::Damaged(69));
    let lines: [Change; 9] = [
        // A closed gate ends the frames.
        (51, 51, [Told::Opened(0), OPENED, OPENED, OPENED, OPENED]),
        (52, 54, first),
        // A later moment makes the next command one of the past.
        (55, 57, second),
        (58, 58, [OPENED, OPENED, behind, behind, behind]),
        (59, 59, [at, at, at, at, at]),
        (60, 63, first),
        (64, 64, first),
        // A lease that has run out can't be renewed.
        (65, 67, [OPENED; 5]),
        (68, 68, [behind, behind, OPENED, OPENED, OPENED]),
    ];
    change_each(&rt, rt.alloc(), &lines)
}

#[test]
fn a_changed_second_command_is_told_at_the_first_wrong_gate(rt: HostRuntime) -> Result<(), Fail> {
    let second = [Told::Damaged(69); 5];
    let at = Told::Damaged(69);
    let lines: [Change; 7] = [
        (69, 69, [Told::Opened(1), OPENED, OPENED, OPENED, OPENED]),
        (70, 75, second),
        // At moment 0 it changes nothing, and late the lease has run out.
        (76, 76, [at, OPENED, OPENED, at, at]),
        (77, 82, second),
        (83, 90, second),
        (91, 93, [OPENED; 5]),
        (94, 94, [OPENED; 5]),
    ];
    change_each(&rt, rt.alloc(), &lines)
}

#[test]
fn a_changed_third_command_is_told_at_its_gate(rt: HostRuntime) -> Result<(), Fail> {
    let third = [Told::Damaged(95); 5];
    let at = Told::Damaged(95);
    let lines: [Change; 7] = [
        (95, 95, [Told::Opened(2), OPENED, OPENED, OPENED, OPENED]),
        (96, 98, third),
        (99, 101, [OPENED; 5]),
        // Before moment 5 it is one of the past.
        (102, 102, [at, at, OPENED, OPENED, OPENED]),
        (103, 108, third),
        (109, 116, third),
        // No frame is whole behind the last gate.
        (117, 117, [Told::Damaged(117); 5]),
    ];
    change_each(&rt, rt.alloc(), &lines)
}

#[test]
fn a_board_is_no_lock_journal(rt: HostRuntime) -> Result<(), Fail> {
    let alloc = rt.alloc();
    let board = joined(alloc, &EMPTY[..51], OF_A_BOARD)?;
    is_told(&rt, alloc, (0, 0), &board, Told::Damaged(51))?;
    // A prepared pair of areas may become either.
    is_told(&rt, alloc, (1, 0), &EMPTY, Told::Opened(0))
}
