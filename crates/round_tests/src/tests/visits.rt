//! Rounds between whose calls another caller moves the board.
use super::beside::VISITOR;
use super::boards::{CALLER, told_beside};
use super::playing::Told;
use super::*;
use bbs_model::{BoardRefusal, Command, Item};
use lrp_records::LrpRefusal;

// Two cells, and a process of one instance; then a round, which would make it and claim it for the first cell,
// and one more.
fn wanted(names: &Names) -> [(u32, Turn); 5] {
    [
        (0, Cell(0, join(names.z1, 9000))),
        (0, Cell(1, join(names.z2, 9000))),
        (0, Client(desire(names.web, 1))),
        (1, Round),
        (2, Round),
    ]
}

// Three calls of the board come before the round.
const BEFORE: u64 = 3;

// The calls by which it makes the instance, and claims it.
const MAKES: u64 = BEFORE + 1;

const CLAIMS: u64 = BEFORE + 2;

fn at_one(op: Op) -> Command {
    let now = Moment(1);
    Command { now, op }
}

// What the first round must be refused, and which items it and the other caller do.
fn first_is(
    rt: &impl Abort,
    told: &Told,
    refused: &[(Command, BoardRefusal)],
    items: &[Item],
) -> Result<(), Fail> {
    let report = told.report()?;
    assert_eq!(rt; report.refused.items(), refused);
    assert_eq!(rt;
        (report.start, report.end),
        (BEFORE, BEFORE + items.len() as u64)
    );
    assert!(rt; told.log.get(BEFORE as usize..) == Some(items));
    assert_eq!(rt; told.end.strays.len(), 0);
    Ok(())
}

// The other caller does that right before this call. What the first round then must be refused, and which items
// it and the other caller do.
fn items_are(
    rt: &impl Abort,
    alloc: Global,
    visit: (u64, Op),
    refused: &[(Command, BoardRefusal)],
    items: &[Item],
) -> Result<(), Fail> {
    let story = wanted(&read_names()?);
    let (until, op) = visit;
    let told = told_beside(alloc, &story[..4], until, at_one(op))?;
    first_is(rt, &told, refused, items)
}

// And what the first round must count, and the second.
fn counts_are(
    rt: &impl Abort,
    alloc: Global,
    visit: (u64, Op),
    first: Counts,
    second: Counts,
) -> Result<(), Fail> {
    let story = wanted(&read_names()?);
    let (until, op) = visit;
    let told = told_beside(alloc, &story, until, at_one(op))?;
    assert_eq!(rt; told.rounds(), [first, second].as_slice());
    assert!(rt; !first.is_complete() && second.is_complete());
    Ok(())
}

#[test]
fn an_instance_that_another_caller_undesires_is_not_made(rt: HostRuntime) -> Result<(), Fail> {
    let (alloc, names) = (rt.alloc(), &read_names()?);
    let first = Counts {
        refused: 1,
        foreign: 1,
        ..asking(2, 0)
    };
    let op = undesire(names.web);
    let refused = [(at_one(make(names.web(0))), BoardRefusal::NotWanted)];
    let items = [Item::Done(VISITOR, at_one(op))];
    items_are(&rt, alloc, (MAKES, op), &refused, &items)?;
    counts_are(&rt, alloc, (MAKES, op), first, asking(2, 0))
}

#[test]
fn an_instance_that_another_caller_claims_is_not_claimed_beside_it(
    rt: HostRuntime,
) -> Result<(), Fail> {
    let (alloc, names) = (rt.alloc(), &read_names()?);
    let first = Counts {
        refused: 1,
        foreign: 1,
        ..asking(2, 1)
    };
    let by = container(1, 1);
    let op = claim(names.web(0), by, names.c2);
    let claims = at_one(claim(names.web(0), container(0, 1), names.c1));
    let refused = [(claims, BoardRefusal::Lrp(LrpRefusal::Held { by }))];
    let items = [
        Item::Done(CALLER, at_one(make(names.web(0)))),
        Item::Done(VISITOR, at_one(op)),
    ];
    items_are(&rt, alloc, (CLAIMS, op), &refused, &items)?;
    // No cell has that container, so that the second round places the instance anew.
    counts_are(&rt, alloc, (CLAIMS, op), first, asking(2, 2))
}

#[test]
fn what_another_caller_desires_meanwhile_is_left_to_the_next_round(
    rt: HostRuntime,
) -> Result<(), Fail> {
    let (alloc, names) = (rt.alloc(), &read_names()?);
    let first = Counts {
        foreign: 1,
        ..asking(2, 2)
    };
    let op = desire(names.job, 1);
    let items = [
        Item::Done(CALLER, at_one(make(names.web(0)))),
        Item::Done(VISITOR, at_one(op)),
        Item::Done(
            CALLER,
            at_one(claim(names.web(0), container(0, 1), names.c1)),
        ),
    ];
    items_are(&rt, alloc, (CLAIMS, op), &[], &items)?;
    counts_are(&rt, alloc, (CLAIMS, op), first, asking(2, 2))
}
