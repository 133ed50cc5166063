//! Many entries that come, change and go in one take: far more than are changed one by one.
use crate::making::{
    all_names, begun, created, desired, entry, ordinary, removed, takes, updated, wanted,
};
use bbs_model::Event;
use diego_names::Name;
use lrp_records::Desired;
use route_emitter::{Emitter, RouteEntry};
use std::alloc::Global;
use std::process::Abort;
use std::test::Fail;

const MANY: u32 = 59;

// The numbers of the instances. The last one is the greatest that there is.
fn indexes(alloc: Global) -> Result<Vec<u32>, Fail> {
    let mut indexes = threes(alloc)?;
    indexes.push(u32::MAX)?;
    Ok(indexes)
}

fn threes(alloc: Global) -> Result<Vec<u32>, Fail> {
    Ok((0..MANY).map(|place| place.wrapping_mul(3)).collect(alloc)?)
}

fn every_second(alloc: Global, indexes: &[u32]) -> Result<Vec<u32>, Fail> {
    Ok(indexes.iter().step_by(2).copied().collect(alloc)?)
}

// They all run, the last ones first.
fn run(alloc: Global, indexes: &[u32], process: Name, cell: Name) -> Result<Vec<Event>, Fail> {
    let rows = indexes
        .iter()
        .rev()
        .map(|index| created(&ordinary(process, *index, 1, cell)));
    Ok(rows.collect(alloc)?)
}

fn stop(alloc: Global, indexes: &[u32], process: Name, cell: Name) -> Result<Vec<Event>, Fail> {
    let rows = indexes
        .iter()
        .map(|index| removed(&ordinary(process, *index, 1, cell)));
    Ok(rows.collect(alloc)?)
}

fn entries(
    alloc: Global,
    indexes: &[u32],
    row: &Desired,
    cell: Name,
) -> Result<Vec<RouteEntry>, Fail> {
    let entries = indexes.iter().map(|index| entry(row, *index, 1, cell));
    Ok(entries.collect(alloc)?)
}

// They run without a route.
fn run_alone(
    rt: &impl Abort,
    alloc: Global,
    indexes: &[u32],
    emitter: &mut Emitter,
) -> Result<(), Fail> {
    let n = all_names()?;
    let begin = [desired(&wanted(n.web, None, 1))];
    takes(rt, emitter, &begin, &[], &[])?;
    let runs = run(alloc, indexes, n.web, n.c1)?;
    takes(rt, emitter, runs.as_slice(), &[], &[])
}

// They get one.
fn get_a_route(
    rt: &impl Abort,
    alloc: Global,
    indexes: &[u32],
    emitter: &mut Emitter,
) -> Result<(), Fail> {
    let n = all_names()?;
    let first = wanted(n.web, Some(n.web), 1);
    let events = [updated(&first)];
    let come = entries(alloc, indexes, &first, n.c1)?;
    takes(rt, emitter, &events, &[], come.as_slice())
}

// Each has another port.
fn get_a_port(
    rt: &impl Abort,
    alloc: Global,
    indexes: &[u32],
    emitter: &mut Emitter,
) -> Result<(), Fail> {
    let n = all_names()?;
    let first = wanted(n.web, Some(n.web), 1);
    let second = wanted(n.web, Some(n.web), 2);
    let events = [updated(&second)];
    let go = entries(alloc, indexes, &first, n.c1)?;
    let come = entries(alloc, indexes, &second, n.c1)?;
    takes(rt, emitter, &events, go.as_slice(), come.as_slice())
}

// Some stop, and the others stay.
fn stop_some(
    rt: &impl Abort,
    alloc: Global,
    indexes: &[u32],
    emitter: &mut Emitter,
) -> Result<(), Fail> {
    let n = all_names()?;
    let second = wanted(n.web, Some(n.web), 2);
    let stops = stop(alloc, indexes, n.web, n.c1)?;
    let go = entries(alloc, indexes, &second, n.c1)?;
    takes(rt, emitter, stops.as_slice(), go.as_slice(), &[])
}

fn follow_many(rt: &impl Abort, alloc: Global, emitter: &mut Emitter) -> Result<(), Fail> {
    let all = indexes(alloc)?;
    let half = every_second(alloc, &all)?;
    run_alone(rt, alloc, &all, emitter)?;
    get_a_route(rt, alloc, &all, emitter)?;
    get_a_port(rt, alloc, &all, emitter)?;
    stop_some(rt, alloc, &half, emitter)
}

#[test]
fn many_entries_change_at_once(rt: HostRuntime) -> Result<(), Fail> {
    match begun(rt.alloc()) {
        Err(fail) => Err(fail),
        Ok(mut emitter) => follow_many(&rt, rt.alloc(), &mut emitter),
    }
}
