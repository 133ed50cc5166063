//! Both areas at once.
use super::{Told, are_told};
use disk_trait::Area;
use run_trials::{OLD_STORED, STORED};
use std::alloc::Global;
use std::process::Abort;
use std::test::Fail;

// An area whose header gate is closed.
fn closed(alloc: Global, area: &[u8]) -> Result<Vec<u8>, Fail> {
    let mut closed = area.to_vec(alloc)?;
    *closed.get_mut(0).ok_or("it has a header")? = 0;
    Ok(closed)
}

// An empty area that says that it is of version 3 and generation 2.
const UNKNOWN: [u8; 52] = *b"\x01DIEGOBBS\x00\x03\x00\x00\x00\x00\x00\x00\x00\x02\
\x00\x00\x00\x1c\x00\x00\x00\x00\x00\x00\x00\x00\x00\x00\x00\x00\x00\x00\x00\x00\x00\x00\x00\x00\
\x00\x00\x00\x00\x00\x00\x00\x00\x00";

fn one_generation_is_told(rt: &impl Abort, alloc: Global) -> Result<(), Fail> {
    let twice = Told::Damaged(Area::B, 11);
    are_told(rt, alloc, 0, (OLD_STORED, OLD_STORED), twice)?;
    are_told(rt, alloc, 1, (STORED, STORED), twice)?;
    are_told(rt, alloc, 2, (OLD_STORED, STORED), twice)
}

#[test]
fn two_areas_of_one_generation_are_told_in_the_second(rt: HostRuntime) -> Result<(), Fail> {
    one_generation_is_told(&rt, rt.alloc())
}

fn a_bad_second_area_is_told(rt: &impl Abort, alloc: Global) -> Result<(), Fail> {
    let unknown = Told::NoBoard(Area::B);
    are_told(rt, alloc, 0, (STORED, &UNKNOWN), unknown)?;
    let front = STORED.get(..18).ok_or("it is longer")?;
    let short = Told::Damaged(Area::B, 18);
    are_told(rt, alloc, 1, (STORED, front), short)
}

#[test]
fn a_second_area_that_is_none_hides_the_first(rt: HostRuntime) -> Result<(), Fail> {
    a_bad_second_area_is_told(&rt, rt.alloc())
}

fn closed_areas_are_told(rt: &impl Abort, alloc: Global) -> Result<(), Fail> {
    let old = closed(alloc, OLD_STORED)?;
    let new = closed(alloc, STORED)?;
    are_told(rt, alloc, 0, (&new, &old), Told::NoBoard(Area::A))?;
    are_told(rt, alloc, 1, (STORED, &old), Told::Opened(1))
}

#[test]
fn a_closed_area_is_passed_over(rt: HostRuntime) -> Result<(), Fail> {
    closed_areas_are_told(&rt, rt.alloc())
}
