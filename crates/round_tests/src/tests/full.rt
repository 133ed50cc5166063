//! Rounds over a board whose life is nearly over.
use super::boards::told_after;
use super::playing::Told;
use super::*;
use bbs_model::{BoardRefusal, Command};

// Three transitions are left: a cell, a process and its instance. There is none for its claim.
const LAST_BUT_THREE: [u8; 5] = [0xff, 0xff, 0xff, 0xff, 0xfd];

const EPOCH: u64 = 1_099_511_627_773;

fn story_of(names: &Names, first: Turn) -> [(u32, Turn); 4] {
    [
        (0, Cell(0, join(names.z1, 600))),
        (0, Client(desire(names.web, 1))),
        (1, first),
        (2, Round),
    ]
}

fn is_refused(rt: &impl Abort, told: &Told, refused: (Command, BoardRefusal)) -> Result<(), Fail> {
    let report = told.report()?;
    assert!(rt; report.refused.items() == [refused].as_slice());
    Ok(())
}

// What two rounds over it count, and what the second one was refused.
fn rounds_are(
    rt: &impl Abort,
    alloc: Global,
    first: Turn,
    rounds: &[Counts],
    number: u32,
) -> Result<(), Fail> {
    let names = &read_names()?;
    let now = Moment(2);
    let op = claim(names.web(0), container(EPOCH, number), names.c1);
    let told = told_after(alloc, &LAST_BUT_THREE, &story_of(names, first))?;
    assert_eq!(rt; told.rounds(), rounds);
    is_refused(rt, &told, (Command { now, op }, BoardRefusal::BoardFull))
}

fn refused_one(own: u64) -> Counts {
    Counts {
        refused: 1,
        ..asking(1, own)
    }
}

#[test]
fn a_claim_that_is_refused_is_told_and_leaves_no_container(rt: HostRuntime) -> Result<(), Fail> {
    let alloc = rt.alloc();
    rounds_are(&rt, alloc, Round, &[refused_one(1), refused_one(0)], 2)
}

#[test]
fn a_refusal_that_was_not_heard_is_told_and_leaves_a_container(
    rt: HostRuntime,
) -> Result<(), Fail> {
    let alloc = rt.alloc();
    let unheard = Counts {
        lost: 1,
        ..refused_one(1)
    };
    let then = Counts {
        stopped: 1,
        ..refused_one(0)
    };
    let first = RoundLoses(3, Delivery::ReplyLost);
    rounds_are(&rt, alloc, first, &[unheard, then], 2)
}
