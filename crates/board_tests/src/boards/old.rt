//! What areas of the first version are read as, and what those of the second alone may have.
use super::defects::is_damaged;
use super::rows_of;
use crate::asserts::{holds, is_number};
use crate::bytes::{EMPTY, OLD_EMPTY, OLD_HEAD, changed, old_area};
use crate::making::instance;
use bbs_model::{DomainRow, Rows};
use diego_names::Name;
use lrp_records::{LrpState, Presence};
use std::alloc::Global;
use std::process::Abort;
use std::test::Fail;

// At second 4 a domain is made fresh for 30 seconds, and a closed gate.
const FRESH: [u8; 18] = *b"\x01\x00\x0e\x1a\x00\x00\x00\x04\x04apps\x00\x00\x00\x1e\x00";

fn made_fresh(alloc: Global, front: &[u8]) -> Result<Vec<u8>, Fail> {
    let mut area = front.to_vec(alloc)?;
    area.extend_from_slice(&FRESH)?;
    Ok(area)
}

fn have_domains(rt: &impl Abort, rows: &Rows) -> Result<(), Fail> {
    let (presence, state) = (Presence::Ordinary, LrpState::Unclaimed);
    let gone = instance(b"gone", presence, state, None)?;
    let web = instance(b"web", presence, state, Some(Name::read(b"apps")?))?;
    holds(rt, rows.actual.items() == [gone, web].as_slice());
    holds(rt, rows.domains.items().is_empty());
    Ok(())
}

#[test]
fn the_rows_of_an_old_head_have_the_domains_of_their_processes(
    rt: HostRuntime,
) -> Result<(), Fail> {
    let alloc = rt.alloc();
    let rows = rows_of(alloc, &old_area(alloc, &OLD_HEAD, b"\0")?, b"")?;
    have_domains(&rt, &rows)
}

#[test]
fn the_first_defect_of_an_old_head_is_told_at_its_place(rt: HostRuntime) -> Result<(), Fail> {
    let alloc = rt.alloc();
    // A SUSPECT row, and a byte behind the rows.
    let suspect = changed(alloc, &OLD_HEAD, 77, 2)?;
    is_damaged(&rt, alloc, &old_area(alloc, &suspect, b"\0")?, 23 + 69)?;
    let mut longer = OLD_HEAD.to_vec(alloc)?;
    longer.push(0)?;
    is_damaged(&rt, alloc, &old_area(alloc, &longer, b"\0")?, 23 + 88)
}

fn has_fresh(rt: &impl Abort, rows: &Rows) -> Result<(), Fail> {
    let fresh = DomainRow {
        domain: Name::read(b"apps")?,
        until: Some(34),
    };
    holds(rt, rows.domains.items() == [fresh].as_slice());
    is_number(rt, rows.next, 1);
    Ok(())
}

#[test]
fn only_a_new_area_may_have_the_commands_of_domains(rt: HostRuntime) -> Result<(), Fail> {
    let alloc = rt.alloc();
    is_damaged(&rt, alloc, &made_fresh(alloc, &OLD_EMPTY[..47])?, 47)?;
    let rows = rows_of(alloc, &made_fresh(alloc, &EMPTY[..51])?, b"")?;
    has_fresh(&rt, &rows)
}

fn has_no_transitions(rt: &impl Abort, rows: &Rows) {
    is_number(rt, rows.next, 0);
}

#[test]
fn only_a_new_area_may_be_of_generation_2_at_first(rt: HostRuntime) -> Result<(), Fail> {
    let alloc = rt.alloc();
    is_damaged(&rt, alloc, &changed(alloc, &OLD_EMPTY, 18, 2)?, 11)?;
    let rows = rows_of(alloc, &changed(alloc, &EMPTY, 18, 2)?, b"")?;
    has_no_transitions(&rt, &rows);
    Ok(())
}
