//! A life of 1,000 calls: one emitter hears of its events one by one, another of those of eight calls at once. Both
//! have the table of the rows then.
ghost use Rattle.bbs_model.specs.Valid.{IsValid};

use crate::making::{begun, no_rows};
use bbs_index::Index;
use bbs_model::{Command, Event, Events, Op, Row, RowStore, Rows, Verdict};
use bbs_transitions::{apply, decide};
use commands::{Names, all_names, join, op_of};
use crash_backoff::Moment;
use lrp_records::Presence;
use route_emitter::{Emitter, RouteEntry};
use std::alloc::Global;
use std::process::Abort;
use std::test::Fail;

mod commands;

/// So many calls are heard of at once.
const PHASE: u32 = 8;

const PHASES: u32 = 125;

fn add<X: Copy>(items: &mut Vec<X>, first: X, second: Option<X>) -> Result<(), Fail> {
    items.push(first)?;
    if let Some(second) = second {
        items.push(second)?;
    }
    Ok(())
}

fn note(told: &mut Vec<Event>, events: &Events) -> Result<(), Fail> {
    add(told, events.first, events.second)
}

// Does the command if it is legal, and notes what it told.
fn call(index: &mut Index, now: u32, op: Op, told: &mut Vec<Event>) -> Result<(), Fail>
    requires { IsValid index.old.rows }
    ensures { IsValid index.new.rows }
{
    let command = Command {
        now: Moment(now),
        op,
    };
    index.reserve(2)?;
    if decide(index, &command) == Verdict::Ok {
        let events = apply(index, &command);
        note(told, &events)?;
    }
    Ok(())
}

// The calls of a phase, one a second.
fn phase(
    n: &Names,
    index: &mut Index,
    seed: &mut u32,
    begin: u32,
    told: &mut Vec<Event>,
) -> Result<(), Fail>
    requires { IsValid index.old.rows }
    ensures { IsValid index.new.rows }
{
    for second in 0..PHASE {
        let now = begin.saturating_add(second);
        call(index, now, op_of(n, seed), told)?;
    }
    Ok(())
}

fn hear_each(emitter: &mut Emitter, events: &[Event]) -> Result<(), Fail> {
    for event in events {
        emitter.take(&[*event])?;
    }
    Ok(())
}

// How many entries come.
fn hear(emitter: &mut Emitter, events: &[Event]) -> Result<usize, Fail> {
    let change = emitter.take(events)?;
    Ok(change.register.items().len())
}

// It is told of a row that is kept aside: an EVACUATING or a SUSPECT one.
fn is_aside(event: &Event) -> bool {
    match &event.row {
        Row::Actual(row) => row.presence != Presence::Ordinary,
        _ => false,
    }
}

fn count_aside(events: &[Event]) -> usize {
    events.iter().filter(|event| is_aside(event)).count()
}

fn are_alike(rt: &impl Abort, fresh: &[RouteEntry], whole: &[RouteEntry], each: &[RouteEntry]) {
    assert_eq!(rt; whole, fresh);
    assert_eq!(rt; each, fresh);
}

// Checks that both have the table of the rows.
fn have_the_table(
    rt: &impl Abort,
    alloc: Global,
    rows: &Rows,
    whole: &Emitter,
    each: &Emitter,
) -> Result<(), Fail>
    requires { IsValid rows.now }
{
    match Emitter::of(alloc, rows) {
        Err(_) => Err(Fail::from("memory")),
        Ok(fresh) => {
            are_alike(rt, fresh.table(), whole.table(), each.table());
            Ok(())
        }
    }
}

fn stand(
    rt: &impl Abort,
    alloc: Global,
    index: &Index,
    whole: &Emitter,
    each: &Emitter,
) -> Result<(), Fail>
    requires { IsValid index.now.rows }
{
    let rows = index.rows(alloc)?;
    have_the_table(rt, alloc, &rows, whole, each)
}

// Two cells join. The lease of the second one ends in the middle of the life, so that what runs there can be
// suspected.
fn begin_life(alloc: Global, n: &Names, index: &mut Index) -> Result<(), Fail>
    requires { IsValid index.old.rows }
    ensures { IsValid index.new.rows }
{
    let mut told = Vec::new(alloc);
    call(index, 0, join(n.c1, 3600), &mut told)?;
    call(index, 0, join(n.c2, 200), &mut told)
}

// What a life has come to: how many entries came, and how many events told of rows that are kept aside.
#[derive(Clone, Copy)]
struct Seen {
    came: usize,
    aside: usize,
}

fn enough(rt: &impl Abort, seen: &Seen) {
    let Seen { came, aside } = *seen;
    assert!(rt; came >= 40 && aside >= 10, "{came} entries, {aside} aside");
}

// The calls of a phase, and what both emitters hear.
fn live_on(
    rt: &impl Abort,
    alloc: Global,
    index: &mut Index,
    whole: &mut Emitter,
    each: &mut Emitter,
    seed: &mut u32,
    begin: u32,
) -> Result<Seen, Fail>
    requires { IsValid index.old.rows }
    ensures { IsValid index.new.rows }
{
    let n = all_names()?;
    let mut told = Vec::new(alloc);
    phase(&n, index, seed, begin, &mut told)?;
    let came = hear(whole, &told)?;
    hear_each(each, &told)?;
    stand(rt, alloc, index, whole, each)?;
    let aside = count_aside(&told);
    Ok(Seen { came, aside })
}

fn live(
    rt: &impl Abort,
    alloc: Global,
    index: &mut Index,
    whole: &mut Emitter,
    each: &mut Emitter,
) -> Result<(), Fail>
    requires { IsValid index.old.rows }
{
    begin_life(alloc, &all_names()?, index)?;
    let mut seed = 7;
    let mut all = Seen { came: 0, aside: 0 };
    for number in 0..PHASES {
        let begin = PHASE * number;
        let seen = live_on(rt, alloc, index, whole, each, &mut seed, begin)?;
        all.came = all.came.saturating_add(seen.came);
        all.aside = all.aside.saturating_add(seen.aside);
    }
    enough(rt, &all);
    Ok(())
}

fn live_with_both(
    rt: &impl Abort,
    alloc: Global,
    index: &mut Index,
    whole: &mut Emitter,
) -> Result<(), Fail>
    requires { IsValid index.old.rows }
{
    match begun(alloc) {
        Err(fail) => Err(fail),
        Ok(mut each) => live(rt, alloc, index, whole, &mut each),
    }
}

fn live_with_one(rt: &impl Abort, alloc: Global, index: &mut Index) -> Result<(), Fail>
    requires { IsValid index.old.rows }
{
    match begun(alloc) {
        Err(fail) => Err(fail),
        Ok(mut whole) => live_with_both(rt, alloc, index, &mut whole),
    }
}

#[test]
fn a_table_follows_the_life_of_a_board(rt: HostRuntime) -> Result<(), Fail> {
    let alloc = rt.alloc();
    let rows = no_rows(alloc);
    match Index::of(alloc, &rows) {
        Err(_) => Err(Fail::from("memory")),
        Ok(mut index) => live_with_one(&rt, alloc, &mut index),
    }
}
