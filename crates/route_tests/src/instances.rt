//! What becomes of the entries of an instance when its rows change.
use crate::making::{
    Names, all_names, begun, changed, created, desired, entry, in_state, ordinary, removed,
    running, takes, updated, wanted,
};
use lrp_records::{Actual, Desired, LrpState, Presence};
use route_emitter::{Emitter, RouteEntry};
use std::process::Abort;
use std::test::Fail;

// Nothing runs of it by its ORDINARY row.
fn unclaimed(n: &Names) -> Actual {
    in_state(n.web, 0, Presence::Ordinary, LrpState::Unclaimed)
}

// It runs on `c1`, and is suspected there: its SUSPECT row runs on.
fn suspect_one(rt: &impl Abort, n: &Names, emitter: &mut Emitter) -> Result<(), Fail> {
    let web = wanted(n.web, Some(n.route), 8080);
    let begin = [desired(&web), created(&ordinary(n.web, 0, 1, n.c1))];
    let suspect = running(n.web, 0, Presence::Suspect, 1, n.c1);
    let set_aside = [created(&suspect), changed(&unclaimed(n))];
    let first = [entry(&web, 0, 1, n.c1)];
    takes(rt, emitter, &begin, &[], &first)?;
    takes(rt, emitter, &set_aside, &[], &[])
}

// Another one runs on `c2` beside it, until the suspected one is given up.
fn replace_it(rt: &impl Abort, n: &Names, emitter: &mut Emitter) -> Result<(), Fail> {
    let web = wanted(n.web, Some(n.route), 8080);
    let run = [changed(&ordinary(n.web, 0, 2, n.c2))];
    let give_up = [removed(&running(n.web, 0, Presence::Suspect, 1, n.c1))];
    let first = [entry(&web, 0, 1, n.c1)];
    let second = [entry(&web, 0, 2, n.c2)];
    takes(rt, emitter, &run, &[], &second)?;
    takes(rt, emitter, &give_up, &first, &[])
}

// An ORDINARY and an EVACUATING row of one container have one entry, which goes with the last of them.
fn evacuate_one(rt: &impl Abort, n: &Names, emitter: &mut Emitter) -> Result<(), Fail> {
    let web = wanted(n.web, Some(n.route), 8080);
    let evacuating = running(n.web, 0, Presence::Evacuating, 2, n.c2);
    let beside = [created(&evacuating)];
    let alone = [changed(&unclaimed(n))];
    let end = [removed(&evacuating)];
    let one = [entry(&web, 0, 2, n.c2)];
    takes(rt, emitter, &beside, &[], &[])?;
    takes(rt, emitter, &alone, &[], &[])?;
    takes(rt, emitter, &end, &one, &[])
}

fn follow_presences(rt: &impl Abort, emitter: &mut Emitter) -> Result<(), Fail> {
    let n = all_names()?;
    suspect_one(rt, &n, emitter)?;
    replace_it(rt, &n, emitter)?;
    evacuate_one(rt, &n, emitter)
}

#[test]
fn an_instance_keeps_its_entry_while_a_row_of_it_runs(rt: HostRuntime) -> Result<(), Fail> {
    match begun(rt.alloc()) {
        Err(fail) => Err(fail),
        Ok(mut emitter) => follow_presences(&rt, &mut emitter),
    }
}

// Its entries by three rows in three containers.
fn three(n: &Names, row: &Desired) -> [RouteEntry; 3] {
    [
        entry(row, 0, 1, n.c3),
        entry(row, 0, 2, n.c2),
        entry(row, 0, 3, n.c1),
    ]
}

// An instance with a row of each presence, in three containers, has three entries. They change together.
fn run_thrice(rt: &impl Abort, n: &Names, emitter: &mut Emitter) -> Result<(), Fail> {
    let old = wanted(n.web, Some(n.route), 80);
    let new = wanted(n.web, Some(n.route), 81);
    let begin = [
        desired(&old),
        created(&running(n.web, 0, Presence::Suspect, 1, n.c3)),
        created(&running(n.web, 0, Presence::Evacuating, 2, n.c2)),
        created(&ordinary(n.web, 0, 3, n.c1)),
    ];
    let change = [updated(&new)];
    let first = three(n, &old);
    let second = three(n, &new);
    takes(rt, emitter, &begin, &[], &first)?;
    takes(rt, emitter, &change, &first, &second)
}

fn follow_three_rows(rt: &impl Abort, emitter: &mut Emitter) -> Result<(), Fail> {
    let n = all_names()?;
    run_thrice(rt, &n, emitter)
}

#[test]
fn an_instance_has_an_entry_for_each_of_three_rows(rt: HostRuntime) -> Result<(), Fail> {
    match begun(rt.alloc()) {
        Err(fail) => Err(fail),
        Ok(mut emitter) => follow_three_rows(&rt, &mut emitter),
    }
}

// It crashes and runs again in another container within one take, and crashes once more.
fn crash_and_run(rt: &impl Abort, n: &Names, emitter: &mut Emitter) -> Result<(), Fail> {
    let web = wanted(n.web, Some(n.route), 8080);
    let crashed = in_state(n.web, 0, Presence::Ordinary, LrpState::Crashed);
    let begin = [desired(&web), created(&ordinary(n.web, 0, 1, n.c1))];
    let again = [changed(&crashed), changed(&ordinary(n.web, 0, 2, n.c1))];
    let end = [changed(&crashed)];
    let first = [entry(&web, 0, 1, n.c1)];
    let second = [entry(&web, 0, 2, n.c1)];
    takes(rt, emitter, &begin, &[], &first)?;
    takes(rt, emitter, &again, &first, &second)?;
    takes(rt, emitter, &end, &second, &[])
}

// What comes and goes within one take isn't told.
fn come_and_go(rt: &impl Abort, n: &Names, emitter: &mut Emitter) -> Result<(), Fail> {
    let one = ordinary(n.web, 0, 3, n.c1);
    let events = [changed(&one), changed(&unclaimed(n))];
    takes(rt, emitter, &events, &[], &[])
}

// Nor is what goes and comes back.
fn come_back(rt: &impl Abort, n: &Names, emitter: &mut Emitter) -> Result<(), Fail> {
    let web = wanted(n.web, Some(n.route), 8080);
    let one = ordinary(n.web, 0, 3, n.c1);
    let other = ordinary(n.web, 0, 4, n.c2);
    let come = [changed(&one)];
    let back = [removed(&one), created(&one)];
    let by_another = [changed(&other), changed(&one)];
    let first = [entry(&web, 0, 3, n.c1)];
    takes(rt, emitter, &come, &[], &first)?;
    takes(rt, emitter, &back, &[], &[])?;
    takes(rt, emitter, &by_another, &[], &[])
}

fn follow_a_crash(rt: &impl Abort, emitter: &mut Emitter) -> Result<(), Fail> {
    let n = all_names()?;
    crash_and_run(rt, &n, emitter)?;
    come_and_go(rt, &n, emitter)?;
    come_back(rt, &n, emitter)
}

#[test]
fn a_take_tells_what_is_other_behind_all_its_events(rt: HostRuntime) -> Result<(), Fail> {
    match begun(rt.alloc()) {
        Err(fail) => Err(fail),
        Ok(mut emitter) => follow_a_crash(&rt, &mut emitter),
    }
}
