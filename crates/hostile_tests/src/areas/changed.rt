//! One byte of area A changed, beside an empty area B.
use super::{Told, are_told};
use disk_trait::Area;
use run_trials::{OLD_STORED, STORED};
use std::alloc::Global;
use std::process::Abort;
use std::test::Fail;

// The place, the byte that stands there instead, and what is told.
type Line = (usize, u8, Told);

fn changed(alloc: Global, area: &[u8], at: usize, value: u8) -> Result<Vec<u8>, Fail> {
    let mut changed = area.to_vec(alloc)?;
    *changed.get_mut(at).ok_or("the place is there")? = value;
    Ok(changed)
}

fn changes_are_told(
    rt: &impl Abort,
    alloc: Global,
    area: &[u8],
    lines: &[Line],
) -> Result<(), Fail> {
    for (at, value, told) in lines {
        let bytes = changed(alloc, area, *at, *value)?;
        are_told(rt, alloc, *at as u64, (&bytes, b""), *told)?;
    }
    Ok(())
}

#[test]
fn a_byte_of_an_old_area_that_was_changed_is_told(rt: HostRuntime) -> Result<(), Fail> {
    let lines: [Line; 5] = [
        // Generation 0, and one that is above the number of transitions in the head and 1.
        (18, 0, Told::Damaged(Area::A, 11)),
        (18, 2, Told::Damaged(Area::A, 11)),
        // Each gate but 0 is open.
        (47, 7, Told::Opened(1)),
        // A frame without a payload, and a kind of command that there isn't.
        (49, 0, Told::Damaged(Area::A, 47)),
        (50, 99, Told::Damaged(Area::A, 47)),
    ];
    changes_are_told(&rt, rt.alloc(), OLD_STORED, &lines)
}

#[test]
fn a_byte_of_an_area_that_was_changed_is_told(rt: HostRuntime) -> Result<(), Fail> {
    let lines: [Line; 9] = [
        // Generation 0, the greatest that the number of transitions in the head allows, and the next.
        (18, 0, Told::Damaged(Area::A, 11)),
        (18, 2, Told::Opened(2)),
        (18, 3, Told::Damaged(Area::A, 11)),
        (51, 7, Told::Opened(1)),
        (53, 0, Told::Damaged(Area::A, 51)),
        (54, 99, Told::Damaged(Area::A, 51)),
        // Versions 0, 3 and 258, of which there are none.
        (10, 0, Told::NoBoard(Area::A)),
        (10, 3, Told::NoBoard(Area::A)),
        (9, 1, Told::NoBoard(Area::A)),
    ];
    changes_are_told(&rt, rt.alloc(), STORED, &lines)
}
