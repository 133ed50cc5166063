//! A cell whose name has joined from elsewhere: the board's row has a new epoch. What names the cell is stale, and
//! what names an instance alone is judged by that.
use super::names::{Names, claim, renew, settle, start, up};
use super::stories::{
    Left, NONE, RUNNING, Story, behind, behind_three, behind_two, draining, joined, one_end, row,
    tell, two_ends,
};
use super::{done, refused};
use crate::Turn;
use bbs_model::BoardRefusal;
use cell_rep::CallEnd;
use std::test::Fail;

// The name has joined behind so many items, and the call comes behind that.
fn stale(epoch: u64) -> CallEnd {
    refused(
        BoardRefusal::StaleEpoch { now: epoch },
        epoch.saturating_add(1),
    )
}

// The first act behind the move of the name.
fn at_once(names: &Names, turn: &Turn) -> Story {
    let before = behind(&names.join_elsewhere());
    row(before, turn, one_end(stale(4)), joined(NONE))
}

#[test]
fn what_names_the_cell_is_stale(rt: HostRuntime) -> Result<(), Fail> {
    let names = Names::read()?;
    let stories = [
        at_once(&names, &renew(700)),
        at_once(&names, &Turn::Drain),
        at_once(&names, &Turn::Evacuate),
        at_once(&names, &claim(names.lrp())),
        at_once(&names, &claim(names.task())),
        at_once(&names, &start(names.lrp())),
        at_once(&names, &start(names.task())),
        at_once(&names, &names.run()),
    ];
    Ok(tell(&rt, rt.alloc(), &names, &stories)?)
}

// What comes up, and then what has not ended.
fn has_none_left(names: &Names) -> [Story; 2] {
    let moved = names.join_elsewhere();
    let one = behind_two(&claim(names.lrp()), &moved);
    let both = behind_three(&claim(names.task()), &names.run(), &moved);
    [
        row(one, &up(), one_end(stale(5)), joined(NONE)),
        row(both, &settle(), two_ends(stale(6), stale(6)), joined(NONE)),
    ]
}

#[test]
fn a_container_that_is_told_of_goes(rt: HostRuntime) -> Result<(), Fail> {
    let names = Names::read()?;
    Ok(tell(&rt, rt.alloc(), &names, &has_none_left(&names))?)
}

fn ended(names: &Names, before: &Turn, turn: &Turn) -> Story {
    let before = behind_two(before, &names.join_elsewhere());
    row(before, turn, one_end(done(6)), joined(NONE))
}

// A cell that was being emptied before its name moved.
fn given_back(names: &Names, before: &Turn, left: Left) -> Story {
    let before = behind_three(before, &Turn::Drain, &names.join_elsewhere());
    row(before, &settle(), one_end(done(7)), left)
}

#[test]
fn what_names_an_instance_alone_is_judged_by_that(rt: HostRuntime) -> Result<(), Fail> {
    let names = Names::read()?;
    let stories = [
        ended(&names, &names.run(), &names.crash()),
        ended(&names, &claim(names.task()), &names.finish(false)),
        given_back(&names, &claim(names.lrp()), draining(NONE)),
        given_back(&names, &names.run(), draining(RUNNING)),
    ];
    Ok(tell(&rt, rt.alloc(), &names, &stories)?)
}
