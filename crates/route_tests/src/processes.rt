//! What becomes of the entries of a process when its row changes.
use crate::making::{
    Names, all_names, begun, created, desired, entry, ordinary, removed, takes, undesired, updated,
    wanted,
};
use lrp_records::Desired;
use route_emitter::Emitter;
use std::process::Abort;
use std::test::Fail;

// Two instances of `web` run on one cell, and one of `api`. Both processes have one route.
fn share_a_route(rt: &impl Abort, n: &Names, emitter: &mut Emitter) -> Result<(), Fail> {
    let web = wanted(n.web, Some(n.route), 8080);
    let api = wanted(n.api, Some(n.route), 9);
    let events = [
        desired(&web),
        desired(&api),
        created(&ordinary(n.web, 1, 2, n.c1)),
        created(&ordinary(n.web, 0, 1, n.c1)),
        created(&ordinary(n.api, 0, 3, n.c1)),
    ];
    let comes = [
        entry(&api, 0, 3, n.c1),
        entry(&web, 0, 1, n.c1),
        entry(&web, 1, 2, n.c1),
    ];
    takes(rt, emitter, &events, &[], &comes)
}

// Each running instance goes once and comes once. Those of the other process stay.
fn change_the_port(rt: &impl Abort, n: &Names, emitter: &mut Emitter) -> Result<(), Fail> {
    let old = wanted(n.web, Some(n.route), 8080);
    let new = wanted(n.web, Some(n.route), 80);
    let events = [updated(&new)];
    let goes = [entry(&old, 0, 1, n.c1), entry(&old, 1, 2, n.c1)];
    let comes = [entry(&new, 0, 1, n.c1), entry(&new, 1, 2, n.c1)];
    takes(rt, emitter, &events, &goes, &comes)
}

// A process that is wanted in so many instances.
fn wanted_in(n: &Names, instances: u32) -> Desired {
    Desired {
        instances,
        ..wanted(n.web, Some(n.route), 80)
    }
}

// More instances are wanted, and then none, which changes no entry.
fn want_others(rt: &impl Abort, n: &Names, emitter: &mut Emitter) -> Result<(), Fail> {
    let more = [updated(&wanted_in(n, 7))];
    let none = [updated(&wanted_in(n, 0))];
    takes(rt, emitter, &more, &[], &[])?;
    takes(rt, emitter, &none, &[], &[])
}

// Who shares the route keeps it, until it stops.
fn stop_both(rt: &impl Abort, n: &Names, emitter: &mut Emitter) -> Result<(), Fail> {
    let web = wanted(n.web, Some(n.route), 80);
    let api = wanted(n.api, Some(n.route), 9);
    let first = [entry(&web, 0, 1, n.c1), entry(&web, 1, 2, n.c1)];
    let second = [entry(&api, 0, 3, n.c1)];
    let end = [undesired(&web)];
    let stop = [removed(&ordinary(n.api, 0, 3, n.c1))];
    takes(rt, emitter, &end, &first, &[])?;
    takes(rt, emitter, &stop, &second, &[])
}

fn follow_two_processes(rt: &impl Abort, emitter: &mut Emitter) -> Result<(), Fail> {
    let n = all_names()?;
    share_a_route(rt, &n, emitter)?;
    change_the_port(rt, &n, emitter)?;
    want_others(rt, &n, emitter)?;
    stop_both(rt, &n, emitter)
}

#[test]
fn two_processes_share_a_route(rt: HostRuntime) -> Result<(), Fail> {
    match begun(rt.alloc()) {
        Err(fail) => Err(fail),
        Ok(mut emitter) => follow_two_processes(&rt, &mut emitter),
    }
}

// An instance runs, and its process loses its route.
fn lose_the_route(rt: &impl Abort, n: &Names, emitter: &mut Emitter) -> Result<(), Fail> {
    let routed = wanted(n.web, Some(n.route), 80);
    let bare = wanted(n.web, None, 80);
    let begin = [desired(&routed), created(&ordinary(n.web, 0, 1, n.c1))];
    let lose = [updated(&bare)];
    let one = [entry(&routed, 0, 1, n.c1)];
    takes(rt, emitter, &begin, &[], &one)?;
    takes(rt, emitter, &lose, &one, &[])
}

// Another one comes meanwhile. Both have an entry by the other route that the process gets.
fn get_another(rt: &impl Abort, n: &Names, emitter: &mut Emitter) -> Result<(), Fail> {
    let routed = wanted(n.web, Some(n.api), 80);
    let run = [created(&ordinary(n.web, 1, 2, n.c2))];
    let get = [updated(&routed)];
    let both = [entry(&routed, 0, 1, n.c1), entry(&routed, 1, 2, n.c2)];
    takes(rt, emitter, &run, &[], &[])?;
    takes(rt, emitter, &get, &[], &both)
}

// It is wanted no more, and desired again while one of them runs still.
fn be_desired_again(rt: &impl Abort, n: &Names, emitter: &mut Emitter) -> Result<(), Fail> {
    let old = wanted(n.web, Some(n.api), 80);
    let new = wanted(n.web, Some(n.route), 8080);
    let end = [undesired(&old)];
    let stop = [removed(&ordinary(n.web, 0, 1, n.c1))];
    let begin = [desired(&new)];
    let both = [entry(&old, 0, 1, n.c1), entry(&old, 1, 2, n.c2)];
    let left = [entry(&new, 1, 2, n.c2)];
    takes(rt, emitter, &end, &both, &[])?;
    takes(rt, emitter, &stop, &[], &[])?;
    takes(rt, emitter, &begin, &[], &left)
}

fn follow_one_process(rt: &impl Abort, emitter: &mut Emitter) -> Result<(), Fail> {
    let n = all_names()?;
    lose_the_route(rt, &n, emitter)?;
    get_another(rt, &n, emitter)?;
    be_desired_again(rt, &n, emitter)
}

#[test]
fn what_runs_is_reached_while_its_process_has_a_route(rt: HostRuntime) -> Result<(), Fail> {
    match begun(rt.alloc()) {
        Err(fail) => Err(fail),
        Ok(mut emitter) => follow_one_process(&rt, &mut emitter),
    }
}
