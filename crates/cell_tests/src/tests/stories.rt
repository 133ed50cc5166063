//! Stories of a cell: turns that are done, and then one turn, its ends and what it leaves.
use super::names::Names;
use super::{Site, site_of, take, take_done};
use crate::Turn;
use bbs_model::Port;
use cell_records::{Container, ContainerState};
use cell_rep::{CallEnd, CellRep, Wire};
use diego_names::OutOfMemory;
use std::alloc::Global;
use std::process::Abort;

/// The states of at most two containers, in order of number.
pub type States = [Option<ContainerState>; 2];

pub const NONE: States = [None, None];

pub const RESERVED: States = [Some(ContainerState::Reserved), None];

pub const RUNNING: States = [Some(ContainerState::Running), None];

/// What a cell knows of itself: the epoch under which it joined, whether it is being emptied, and its containers.
#[derive(Clone, Copy)]
pub struct Left {
    pub epoch: Option<u64>,
    pub draining: bool,
    pub states: States,
}

/// The cell has joined as the board's first transition.
pub fn joined(states: States) -> Left {
    Left {
        epoch: Some(0),
        draining: false,
        states,
    }
}

/// And it is being emptied.
pub fn draining(states: States) -> Left {
    Left {
        epoch: Some(0),
        draining: true,
        states,
    }
}

pub fn unjoined() -> Left {
    Left {
        epoch: None,
        draining: false,
        states: NONE,
    }
}

/// Turns of which there are at most three.
pub type Turns = [Option<Turn>; 3];

/// The ends of at most three calls.
pub type Ends = [Option<CallEnd>; 3];

/// Behind the beginning come turns of which each is the next transition, and then a turn whose calls end so.
#[derive(Clone, Copy)]
pub struct Story {
    pub before: Turns,
    pub turn: Turn,
    pub ends: Ends,
    pub left: Left,
}

pub fn nothing() -> Turns {
    [None, None, None]
}

pub fn behind(one: &Turn) -> Turns {
    [Some(*one), None, None]
}

pub fn behind_two(one: &Turn, two: &Turn) -> Turns {
    [Some(*one), Some(*two), None]
}

pub fn behind_three(one: &Turn, two: &Turn, three: &Turn) -> Turns {
    [Some(*one), Some(*two), Some(*three)]
}

pub fn one_end(one: CallEnd) -> Ends {
    [Some(one), None, None]
}

pub fn two_ends(one: CallEnd, two: CallEnd) -> Ends {
    [Some(one), Some(two), None]
}

pub fn three_ends(one: CallEnd, two: CallEnd, three: CallEnd) -> Ends {
    [Some(one), Some(two), Some(three)]
}

pub fn row(before: Turns, turn: &Turn, ends: Ends, left: Left) -> Story {
    Story {
        before,
        turn: *turn,
        ends,
        left,
    }
}

/// Those that are there.
pub fn given<T: Copy>(alloc: Global, items: &[Option<T>]) -> Result<Vec<T>, OutOfMemory> {
    let mut found = Vec::new(alloc);
    for item in items {
        if let Some(item) = item {
            found.push(*item)?;
        }
    }
    Ok(found)
}

fn epoch_of(alloc: Global, rep: &CellRep) -> Result<Option<u64>, OutOfMemory> {
    match rep.answer(alloc)? {
        None => Ok(None),
        Some(answer) => Ok(Some(answer.epoch)),
    }
}

fn states_of(containers: &[Container]) -> (usize, States) {
    let states = match containers {
        [] => NONE,
        [one] => [Some(one.state), None],
        [one, two, ..] => [Some(one.state), Some(two.state)],
    };
    (containers.len(), states)
}

fn count(states: &States) -> usize {
    match states {
        [None, _] => 0,
        [Some(_), None] => 1,
        [Some(_), Some(_)] => 2,
    }
}

/// The cell knows this of itself.
pub fn is_left(
    rt: &impl Abort,
    alloc: Global,
    rep: &CellRep,
    left: &Left,
) -> Result<(), OutOfMemory> {
    assert_eq!(rt; epoch_of(alloc, rep)?, left.epoch);
    assert_eq!(rt; rep.is_draining(), left.draining);
    assert_eq!(rt;
        states_of(rep.containers(alloc)?.items()),
        (count(&left.states), left.states)
    );
    Ok(())
}

/// The cell has joined and something waits for it, and then such turns are done.
pub fn begin<P: Port, W: Wire>(
    rt: &impl Abort,
    alloc: Global,
    site: &mut Site<P, W>,
    names: &Names,
    before: &[Option<Turn>],
) -> Result<(), OutOfMemory> {
    let before = given(alloc, before)?;
    take_done(rt, alloc, site, &names.begin())?;
    take_done(rt, alloc, site, &before)
}

/// A turn ends so, and leaves this.
pub fn step<P: Port, W: Wire>(
    rt: &impl Abort,
    alloc: Global,
    site: &mut Site<P, W>,
    turn: &Turn,
    ends: &[CallEnd],
    left: &Left,
) -> Result<(), OutOfMemory> {
    take(rt, alloc, site, &[*turn], ends)?;
    is_left(rt, alloc, &site.rep, left)
}

fn tell_over<P: Port + Drop, W: Wire + Drop>(
    rt: &impl Abort,
    alloc: Global,
    mut site: Site<P, W>,
    names: &Names,
    story: &Story,
) -> Result<(), OutOfMemory> {
    begin(rt, alloc, &mut site, names, &story.before)?;
    let ends = given(alloc, &story.ends)?;
    step(rt, alloc, &mut site, &story.turn, &ends, &story.left)
}

/// Each story, over a wire and a disk that lose nothing.
pub fn tell(
    rt: &impl Abort,
    alloc: Global,
    names: &Names,
    stories: &[Story],
) -> Result<(), OutOfMemory> {
    for story in stories {
        let site = site_of(alloc, names.cell, None, None)?;
        tell_over(rt, alloc, site, names, story)?;
    }
    Ok(())
}
