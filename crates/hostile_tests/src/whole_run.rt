//! A run of 18 phases whose disk fails in one device call, or in one and the next.
ghost use Rattle.bbs_model.specs.Valid.{IsValid};

use crate::asserts::{holds_at, is_number};
use crate::images::leaves_within_reach;
use crate::reach::no_rows;
use crate::runs::{Runtime, played};
use bbs_model::{Item, Rows};
use disk_trait::Disk;
use run_trials::{EMPTY, Left, REALISTIC};
use std::alloc::Global;
use std::process::Abort;
use std::test::Fail;

// The device calls of the opening, and of the opening and 31 appends.
const OPENING: u64 = 7;

const CALLS: u64 = 131;

fn has_doubt(log: &[Item]) -> bool {
    log.iter().any(|item| matches!(item, Item::Doubt(..)))
}

// The run ended with status 5: without an item if that call was of the opening, and else with a doubt.
fn is_cut(rt: &impl Abort, call: u64, left: &Left) {
    holds_at(rt, call, left.status == 5);
    holds_at(rt, call, left.log.is_empty() == (call <= OPENING));
    holds_at(rt, call, has_doubt(&left.log) == (call > OPENING));
}

// Before that call the run goes as one that nothing disturbs.
fn stops_are_within_reach(
    rt: &impl Abort,
    alloc: Global,
    base: &Rows,
    left: &mut Left,
    first: u64,
) -> Result<(), Fail>
    requires { IsValid base.now }
{
    let log = (left.log.as_slice(), left.marks.as_slice());
    leaves_within_reach(rt, alloc, base, &mut left.disk, log, first)
}

fn fails(
    rt: &impl Runtime,
    alloc: Global,
    base: &Rows,
    call: u64,
    failing: &[u64],
) -> Result<(), Fail>
    requires { IsValid base.now }
{
    let mut left = played(rt, alloc, EMPTY, REALISTIC.as_bytes(), failing)?;
    is_cut(rt, call, &left);
    stops_are_within_reach(rt, alloc, base, &mut left, call)
}

fn each_fails(rt: &impl Runtime, alloc: Global, base: &Rows, calls: (u64, u64)) -> Result<(), Fail>
    requires { IsValid base.now }
{
    let (from, to) = calls;
    for call in from..to {
        fails(rt, alloc, base, call, &[call])?;
        fails(rt, alloc, base, call, &[call, call.saturating_add(1)])?;
    }
    Ok(())
}

fn each_fails_on_no_rows(rt: &impl Runtime, alloc: Global, calls: (u64, u64)) -> Result<(), Fail> {
    let base = no_rows(alloc);
    each_fails(rt, alloc, &base, calls)
}

#[test]
fn a_disk_that_fails_in_the_first_half_of_a_run_leaves_what_the_log_reaches(
    rt: HostRuntime,
) -> Result<(), Fail> {
    each_fails_on_no_rows(&rt, rt.alloc(), (1, 68))
}

#[test]
fn a_disk_that_fails_in_the_third_quarter_of_a_run_leaves_what_the_log_reaches(
    rt: HostRuntime,
) -> Result<(), Fail> {
    each_fails_on_no_rows(&rt, rt.alloc(), (68, 100))
}

#[test]
fn a_disk_that_fails_in_the_last_quarter_of_a_run_leaves_what_the_log_reaches(
    rt: HostRuntime,
) -> Result<(), Fail> {
    each_fails_on_no_rows(&rt, rt.alloc(), (100, CALLS + 1))
}

fn is_whole(rt: &impl Abort, left: &Left) {
    is_number(rt, left.status as u64, 0);
    is_number(rt, left.log.len() as u64, 31);
    is_number(rt, left.disk.clock(), CALLS);
}

fn nothing_fails(rt: &impl Runtime, alloc: Global, base: &Rows) -> Result<(), Fail>
    requires { IsValid base.now }
{
    let failing = [CALLS + 1];
    let mut left = played(rt, alloc, EMPTY, REALISTIC.as_bytes(), &failing)?;
    is_whole(rt, &left);
    stops_are_within_reach(rt, alloc, base, &mut left, 1)
}

fn nothing_fails_on_no_rows(rt: &impl Runtime, alloc: Global) -> Result<(), Fail> {
    let base = no_rows(alloc);
    nothing_fails(rt, alloc, &base)
}

#[test]
fn a_run_that_meets_no_failing_call_is_whole_and_leaves_what_its_log_reaches(
    rt: HostRuntime,
) -> Result<(), Fail> {
    nothing_fails_on_no_rows(&rt, rt.alloc())
}
