//! Area A cut to every length, beside an empty area B.
use super::{Told, are_told};
use disk_trait::Area;
use run_trials::{OLD_STORED, STORED};
use std::alloc::Global;
use std::process::Abort;
use std::test::Fail;

// The lengths from one to another, and what all of them are told.
type Line = (usize, usize, Told);

fn cut_to(rt: &impl Abort, alloc: Global, area: &[u8], len: usize, told: Told) -> Result<(), Fail> {
    let front = area.get(..len).ok_or("the area is longer")?;
    are_told(rt, alloc, len as u64, (front, b""), told)
}

fn cut_to_each(rt: &impl Abort, alloc: Global, area: &[u8], line: &Line) -> Result<(), Fail> {
    let (from, to, told) = *line;
    for len in from..to.saturating_add(1) {
        cut_to(rt, alloc, area, len, told)?;
    }
    Ok(())
}

fn cuts_are_told(rt: &impl Abort, alloc: Global, area: &[u8], lines: &[Line]) -> Result<(), Fail> {
    for line in lines {
        cut_to_each(rt, alloc, area, line)?;
    }
    Ok(())
}

#[test]
fn an_old_area_that_is_cut_short_is_told_at_its_place(rt: HostRuntime) -> Result<(), Fail> {
    let lines: [Line; 6] = [
        // Not all of the magic and the version.
        (0, 10, Told::NoBoard(Area::A)),
        // Not all of the header and the head.
        (11, 46, Told::AtEnd),
        // No gate, and a frame that isn't whole behind an open one.
        (47, 47, Told::Damaged(Area::A, 47)),
        (48, 79, Told::Damaged(Area::A, 47)),
        // A whole frame without the closed gate behind it.
        (80, 80, Told::Damaged(Area::A, 80)),
        (81, 81, Told::Opened(1)),
    ];
    cuts_are_told(&rt, rt.alloc(), OLD_STORED, &lines)
}

#[test]
fn an_area_that_is_cut_short_is_told_at_its_place(rt: HostRuntime) -> Result<(), Fail> {
    let lines: [Line; 6] = [
        (0, 10, Told::NoBoard(Area::A)),
        (11, 50, Told::AtEnd),
        (51, 51, Told::Damaged(Area::A, 51)),
        (52, 83, Told::Damaged(Area::A, 51)),
        (84, 84, Told::Damaged(Area::A, 84)),
        (85, 85, Told::Opened(1)),
    ];
    cuts_are_told(&rt, rt.alloc(), STORED, &lines)
}
