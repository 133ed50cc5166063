//! The acts, one after another, each of them tried with each mishap.
use super::{Mishap, Tried, after, is_made_again, place_of};
use crate::Turn;
use crate::tests::names::{Names, claim, renew, settle, start, up};
use crate::tests::stories::{
    Left, NONE, RESERVED, RUNNING, States, begin, draining, joined, unjoined,
};
use crate::tests::{Site, done, done_behind_a_doubt, refused, same, site_of, take};
use bbs_model::{BoardRefusal, Port};
use cell_records::ContainerState;
use cell_rep::{CallEnd, Delivery, Wire};
use diego_names::{OutOfMemory, StateName};
use lrp_records::LrpRefusal;
use std::alloc::Global;
use std::process::Abort;
use std::test::Fail;
use task_records::{TaskRefusal, TaskState};

const FAILED: States = [Some(ContainerState::Completed { failed: true }), None];

// An act that is taken twice, and leaves the same each time.
fn twice(turn: &Turn, left: Left) -> Tried {
    Tried {
        before: [None, None],
        turn: *turn,
        left,
        again: *turn,
        at_last: left,
    }
}

// A settle that is taken twice, of a cell that is being emptied.
fn settles(before: &Turn, left: States, at_last: States) -> Tried {
    Tried {
        before: [Some(*before), Some(Turn::Drain)],
        turn: settle(),
        left: draining(left),
        again: settle(),
        at_last: draining(at_last),
    }
}

fn first(turn: &Turn) -> [Option<Turn>; 2] {
    [Some(*turn), None]
}

// A claim goes on with what a round started.
fn started(names: &Names) -> Tried {
    let mut tried = twice(&claim(names.lrp()), joined(RESERVED));
    tried.turn = start(names.lrp());
    tried
}

// What came up is no longer RESERVED, so that it takes a settle to tell of it.
fn came_up(names: &Names) -> Tried {
    let mut tried = twice(&settle(), joined(RUNNING));
    tried.before = first(&claim(names.lrp()));
    tried.turn = up();
    tried
}

fn drained() -> Tried {
    let mut tried = twice(&Turn::Drain, joined(NONE));
    tried.at_last = draining(NONE);
    tried
}

#[test]
fn what_was_done_unheard_is_found_done(rt: HostRuntime) -> Result<(), Fail> {
    let names = Names::read()?;
    let table = [
        twice(&renew(700), joined(NONE)),
        twice(&claim(names.lrp()), joined(RESERVED)),
        twice(&claim(names.task()), joined(RESERVED)),
        twice(&names.run(), joined(RUNNING)),
        started(&names),
        came_up(&names),
        drained(),
        settles(&names.run(), RUNNING, RUNNING),
    ];
    for tried in &table {
        let unheard = same(place_of(tried).saturating_add(1));
        is_made_again(&rt, rt.alloc(), &names, tried, unheard)?;
    }
    Ok(())
}

// A container that ended, and is gone when the call has been made again.
fn ended(before: &Turn, turn: &Turn, again: &Turn) -> Tried {
    Tried {
        before: [Some(*before), None],
        turn: *turn,
        left: joined(FAILED),
        again: *again,
        at_last: joined(NONE),
    }
}

const NOT_RUNNING: BoardRefusal = BoardRefusal::Lrp(LrpRefusal::NotRunning);

const HAS_ENDED: BoardRefusal = BoardRefusal::Task(TaskRefusal::WrongState {
    state: StateName::Completed,
});

#[test]
fn an_end_that_was_done_unheard_is_refused(rt: HostRuntime) -> Result<(), Fail> {
    let names = Names::read()?;
    let (run, crash) = (names.run(), names.crash());
    let (task, finish) = (claim(names.task()), names.finish(true));
    let table = [
        (ended(&run, &crash, &crash), NOT_RUNNING),
        (ended(&run, &crash, &settle()), NOT_RUNNING),
        (ended(&task, &finish, &names.finish(false)), HAS_ENDED),
        (ended(&task, &finish, &settle()), HAS_ENDED),
        (settles(&claim(names.lrp()), RESERVED, NONE), NOT_RUNNING),
    ];
    for (tried, why) in &table {
        let unheard = refused(*why, place_of(tried).saturating_add(1));
        is_made_again(&rt, rt.alloc(), &names, tried, unheard)?;
    }
    Ok(())
}

// A cell that joins again, which had joined as the board's first transition.
fn joins_again(names: &Names, epoch: u64) -> Tried {
    let mut tried = twice(&names.join(), unjoined());
    tried.at_last.epoch = Some(epoch);
    tried
}

#[test]
fn a_join_that_was_done_unheard_is_done_anew(rt: HostRuntime) -> Result<(), Fail> {
    let alloc = rt.alloc();
    let names = Names::read()?;
    let fourth = joins_again(&names, 4);
    let fifth = joins_again(&names, 5);
    let behind = done_behind_a_doubt(5);
    after(&rt, alloc, &names, &fourth, Mishap::CallLost, &[done(4)])?;
    after(&rt, alloc, &names, &fifth, Mishap::ReplyLost, &[done(5)])?;
    Ok(after(&rt, alloc, &names, &fourth, Mishap::DiskFault, &[behind])?)
}

// Nothing settles before the board's agreement is heard.
fn evacuated(names: &Names) -> Tried {
    let mut tried = twice(&Turn::Evacuate, joined(RUNNING));
    tried.before = first(&names.run());
    tried.at_last = draining(RUNNING);
    tried
}

#[test]
fn an_evacuation_begins_anew_with_its_drain(rt: HostRuntime) -> Result<(), Fail> {
    let alloc = rt.alloc();
    let names = Names::read()?;
    let tried = evacuated(&names);
    let ends = [done(5), done(6)];
    after(&rt, alloc, &names, &tried, Mishap::CallLost, &ends)?;
    let ends = [same(6), done(6)];
    after(&rt, alloc, &names, &tried, Mishap::ReplyLost, &ends)?;
    let ends = [done_behind_a_doubt(6), done_behind_a_doubt(7)];
    Ok(after(&rt, alloc, &names, &tried, Mishap::DiskFault, &ends)?)
}

// The call of an end is lost, and the same end comes again, as one that did not fail: the first one counts.
fn end_twice<P: Port + Drop, W: Wire + Drop>(
    rt: &impl Abort,
    alloc: Global,
    mut site: Site<P, W>,
    names: &Names,
) -> Result<bool, OutOfMemory> {
    let before = [Some(claim(names.task()))];
    begin(rt, alloc, &mut site, names, &before)?;
    let turns = [names.finish(true), names.finish(false)];
    take(rt, alloc, &mut site, &turns, &[CallEnd::CallLost, done(5)])?;
    let failed = TaskState::Completed { failed: true };
    match site.port.rows(alloc)?.tasks.items() {
        [task] => Ok(task.state == failed),
        _ => Ok(false),
    }
}

#[test]
fn the_flag_of_the_first_end_counts(rt: HostRuntime) -> Result<(), Fail> {
    let alloc = rt.alloc();
    let names = Names::read()?;
    let lost = Some((3, Delivery::CallLost));
    let site = site_of(alloc, names.cell, None, lost)?;
    assert!(rt; end_twice(&rt, alloc, site, &names)?);
    Ok(())
}
