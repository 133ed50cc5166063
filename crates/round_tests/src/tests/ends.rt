//! What must come of a story. Each of these plays it anew, so that a test holds nothing that has to be dropped.
use super::boards::told;
use super::playing::{Counts, Told};
use super::turns::Turn;
use super::turns::Turn::Round;
use bbs_model::Op;
use diego_names::{Instance, Name};
use lrp_records::Actual;
use std::alloc::Global;
use std::process::Abort;
use std::test::Fail;

// A story that goes on.
fn then(
    alloc: Global,
    story: &[(u32, Turn)],
    more: &[(u32, Turn)],
) -> Result<Vec<(u32, Turn)>, Fail> {
    let mut turns = story.to_vec(alloc)?;
    turns.extend_from_slice(more)?;
    Ok(turns)
}

// What came of a story that goes on.
fn told_then(alloc: Global, story: &[(u32, Turn)], more: &[(u32, Turn)]) -> Result<Told, Fail> {
    let turns = then(alloc, story, more)?;
    told(alloc, &turns)
}

/// What the rounds of a story must count, one after another.
pub fn rounds_count(
    rt: &impl Abort,
    alloc: Global,
    story: &[(u32, Turn)],
    more: &[(u32, Turn)],
    rounds: &[Counts],
) -> Result<(), Fail> {
    let told = told_then(alloc, story, more)?;
    assert_eq!(rt; told.rounds(), rounds);
    Ok(())
}

// What the last turn did.
fn last_of(alloc: Global, story: &[(u32, Turn)], more: &[(u32, Turn)]) -> Result<Vec<Op>, Fail> {
    let told = told_then(alloc, story, more)?;
    told.last(alloc)
}

/// What the last turn of a story must do, one operation after another.
pub fn last_does(
    rt: &impl Abort,
    alloc: Global,
    story: &[(u32, Turn)],
    more: &[(u32, Turn)],
    ops: &[Op],
) -> Result<(), Fail> {
    let last = last_of(alloc, story, more)?;
    assert_eq!(rt; last.as_slice(), ops);
    Ok(())
}

/// What a round at this second must do after these turns, one operation after another.
pub fn round_does(
    rt: &impl Abort,
    alloc: Global,
    story: &[(u32, Turn)],
    now: u32,
    ops: &[Op],
) -> Result<(), Fail> {
    last_does(rt, alloc, story, &[(now, Round)], ops)
}

/// The same, after turns that go on so.
pub fn round_then_does(
    rt: &impl Abort,
    alloc: Global,
    story: &[(u32, Turn)],
    more: &[(u32, Turn)],
    now: u32,
    ops: &[Op],
) -> Result<(), Fail> {
    let turns = then(alloc, story, more)?;
    round_does(rt, alloc, &turns, now, ops)
}

/// The same, where a round in the second before must do nothing.
pub fn first_does(
    rt: &impl Abort,
    alloc: Global,
    story: &[(u32, Turn)],
    more: &[(u32, Turn)],
    now: u32,
    ops: &[Op],
) -> Result<(), Fail> {
    round_then_does(rt, alloc, story, more, now.saturating_sub(1), &[])?;
    round_then_does(rt, alloc, story, more, now, ops)
}

/// Which containers the rows must leave over at the end of a story.
pub fn strays_are(
    rt: &impl Abort,
    alloc: Global,
    story: &[(u32, Turn)],
    more: &[(u32, Turn)],
    strays: &[(Name, Instance)],
) -> Result<(), Fail> {
    let told = told_then(alloc, story, more)?;
    assert_eq!(rt; told.end.strays.items(), strays);
    Ok(())
}

/// The rows of instances at the end of a story.
pub fn rows_are(
    rt: &impl Abort,
    alloc: Global,
    story: &[(u32, Turn)],
    rows: &[Actual],
) -> Result<(), Fail> {
    let told = told(alloc, story)?;
    assert!(rt; told.end.rows.actual.items() == rows);
    Ok(())
}

/// How many items the log must have at the end of a story.
pub fn log_has(
    rt: &impl Abort,
    alloc: Global,
    story: &[(u32, Turn)],
    items: usize,
) -> Result<(), Fail> {
    let told = told(alloc, story)?;
    assert_eq!(rt; told.log.len(), items);
    Ok(())
}
