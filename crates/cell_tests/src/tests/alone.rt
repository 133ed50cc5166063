//! Acts that make no call: of a cell that has not joined, and of one that has nothing to tell.
use super::names::{Names, claim, die, renew, settle, start, up};
use super::stories::{
    Left, NONE, RUNNING, Story, behind, joined, nothing, one_end, row, step, tell, unjoined,
};
use super::{Site, site_of};
use crate::Turn;
use bbs_model::Port;
use cell_records::JobName;
use cell_rep::{CallEnd, CellAct, CellRep, RepRefusal, Wire};
use container_store::StoreRefusal;
use diego_names::{Instance, OutOfMemory};
use evacuation::drained;
use std::alloc::Global;
use std::process::Abort;
use std::test::Fail;

const DOWN: CallEnd = CallEnd::Local(RepRefusal::Down);

const UNKNOWN: CallEnd = CallEnd::Local(RepRefusal::Store(StoreRefusal::Unknown));

#[test]
fn a_cell_that_never_joined_has_no_answer(rt: HostRuntime) -> Result<(), Fail> {
    let rep = CellRep::new(Names::read()?.cell);
    assert!(rt; rep.answer(rt.alloc())?.is_none());
    assert!(rt; rep.is_empty());
    assert!(rt; drained(&rep));
    Ok(())
}

fn up_with(job: JobName) -> Turn {
    Turn::Act(CellAct::Up { job: Some(job) })
}

// Turns of a cell that has not joined, of which each has this end.
fn each_ends<P: Port, W: Wire>(
    rt: &impl Abort,
    alloc: Global,
    site: &mut Site<P, W>,
    turns: &[Turn],
    end: CallEnd,
) -> Result<(), OutOfMemory> {
    for turn in turns {
        step(rt, alloc, site, turn, &[end], &unjoined())?;
    }
    Ok(())
}

fn needs_a_join(names: &Names) -> [Turn; 11] {
    [
        renew(600),
        claim(names.lrp()),
        names.run(),
        up(),
        up_with(names.lrp()),
        names.crash(),
        names.finish(false),
        settle(),
        Turn::Drain,
        Turn::Evacuate,
        start(names.lrp()),
    ]
}

fn is_down<P: Port + Drop, W: Wire + Drop>(
    rt: &impl Abort,
    alloc: Global,
    mut site: Site<P, W>,
    names: &Names,
) -> Result<(), OutOfMemory> {
    let stop = Turn::Stop(Instance {
        epoch: 0,
        number: 1,
    });
    each_ends(rt, alloc, &mut site, &needs_a_join(names), DOWN)?;
    each_ends(rt, alloc, &mut site, &[die()], CallEnd::Idle)?;
    each_ends(rt, alloc, &mut site, &[stop], UNKNOWN)
}

#[test]
fn who_has_not_joined_is_down(rt: HostRuntime) -> Result<(), Fail> {
    let names = Names::read()?;
    let site = site_of(rt.alloc(), names.cell, None, None)?;
    Ok(is_down(&rt, rt.alloc(), site, &names)?)
}

fn at_once(turn: &Turn, end: CallEnd) -> Story {
    row(nothing(), turn, one_end(end), joined(NONE))
}

fn later(before: &Turn, turn: &Turn, end: CallEnd, left: Left) -> Story {
    row(behind(before), turn, one_end(end), left)
}

// The board has a task RUNNING when its container comes up.
#[test]
fn what_has_nothing_to_tell_makes_no_call(rt: HostRuntime) -> Result<(), Fail> {
    let names = Names::read()?;
    let (lrp, task) = (up_with(names.lrp()), up_with(names.task()));
    let stories = [
        at_once(&up(), CallEnd::Idle),
        at_once(&settle(), CallEnd::Idle),
        at_once(&lrp, UNKNOWN),
        at_once(&task, UNKNOWN),
        at_once(&names.crash(), UNKNOWN),
        at_once(&names.finish(false), UNKNOWN),
        later(&claim(names.task()), &task, CallEnd::Idle, joined(RUNNING)),
        later(&names.run(), &lrp, UNKNOWN, joined(RUNNING)),
        later(&names.run(), &die(), CallEnd::Idle, unjoined()),
    ];
    Ok(tell(&rt, rt.alloc(), &names, &stories)?)
}
