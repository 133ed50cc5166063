//! Each line of what convergence asks, as a case, and the moment before it is asked.
use super::{
    asks, at, container, crash, desire, first, fresh, join, make, new_task, read_names, start,
    start_task,
};
use bbs_model::{Command, Op};
use diego_names::{Key, Name};
use std::alloc::Global;
use std::process::Abort;
use std::test::Fail;

// What must be asked in each case, at its moment, once its commands were done.
fn each_asks(
    rt: &impl Abort,
    alloc: Global,
    cases: &[(&[Command], u32, &[Op])],
) -> Result<(), Fail> {
    for (done, now, asked) in cases {
        assert!(rt;
            asks(alloc, done, *now, asked)?,
            "after {} commands, at {now}",
            done.len()
        );
    }
    Ok(())
}

#[test]
fn wanted_instances_are_made_and_others_removed(rt: HostRuntime) -> Result<(), Fail> {
    let process = read_names()?.web;
    let (key, instance) = (first(process), None);
    let wanted = [desire(process, 3)];
    let makes = [0, 1, 2].map(|index| Op::Make {
        key: Key { process, index },
    });
    let made = [desire(process, 1), make(process)];
    let unwanted = [
        desire(process, 1),
        make(process),
        at(0, Op::Undesire { process }),
        fresh(process, 2),
    ];
    let removes = [Op::Remove { key, instance }];
    let ended = [Op::Forget { domain: process }];
    let cases = [
        (wanted.as_slice(), 1, makes.as_slice()),
        (made.as_slice(), 1, &[]),
        (unwanted.as_slice(), 1, removes.as_slice()),
        (&unwanted[..3], 1, &[]),
        (unwanted.as_slice(), 2, ended.as_slice()),
    ];
    each_asks(&rt, rt.alloc(), &cases)
}

// What is said of the container of the first instance on the cell that joined as the third command.
fn claim_of(process: Name, cell: Name) -> Op {
    let (key, instance) = (first(process), container(2));
    Op::Claim {
        key,
        instance,
        cell,
    }
}

fn return_of(process: Name) -> Op {
    let (key, instance) = (first(process), container(2));
    Op::Unclaim { key, instance }
}

fn suspicion_of(process: Name) -> Op {
    let (key, instance) = (first(process), container(2));
    Op::Suspect { key, instance }
}

fn end_of_suspicion(process: Name) -> Op {
    let (key, instance) = (first(process), container(2));
    Op::DropSuspect { key, instance }
}

#[test]
fn rows_whose_cell_is_gone_are_suspected_or_unclaimed(rt: HostRuntime) -> Result<(), Fail> {
    let names = read_names()?;
    let (process, cell) = (names.web, names.a);
    let running = [
        desire(process, 1),
        make(process),
        join(cell, 30),
        start(process, 2, cell),
    ];
    let claimed = [
        running[0],
        running[1],
        running[2],
        at(0, claim_of(process, cell)),
    ];
    let unwanted = [
        running[0],
        running[1],
        running[2],
        running[3],
        at(0, Op::Undesire { process }),
    ];
    let lost = [Op::Vanish { cell }, suspicion_of(process)];
    let given_back = [Op::Vanish { cell }, return_of(process)];
    let cases = [
        (running.as_slice(), 30, lost.as_slice()),
        (running.as_slice(), 29, &[]),
        (claimed.as_slice(), 30, given_back.as_slice()),
        (unwanted.as_slice(), 30, given_back.as_slice()),
        (unwanted.as_slice(), 29, &[]),
    ];
    each_asks(&rt, rt.alloc(), &cases)
}

#[test]
fn crashed_rows_are_restarted(rt: HostRuntime) -> Result<(), Fail> {
    let names = read_names()?;
    let (process, cell) = (names.web, names.a);
    let once = [
        desire(process, 1),
        make(process),
        join(cell, 90),
        start(process, 2, cell),
        crash(process, 2),
    ];
    let twice = [
        once[0], once[1], once[2], once[3], once[4], once[3], once[4],
    ];
    let thrice = [
        once[0], once[1], once[2], once[3], once[4], once[3], once[4], once[3], once[4],
    ];
    let often = [
        once[0], once[1], once[2], once[3], once[4], once[3], once[4], once[3], once[4], once[3],
        once[4],
    ];
    let key = first(process);
    let restarts = [Op::Restart { key }];
    let cases = [
        (often.as_slice(), 30, restarts.as_slice()),
        (often.as_slice(), 29, &[]),
        (thrice.as_slice(), 1, &[]),
        (twice.as_slice(), 1, &[]),
    ];
    each_asks(&rt, rt.alloc(), &cases)
}

// The old row of the first instance is dropped.
fn drop_old(process: Name) -> Op {
    let (key, instance) = (first(process), container(2));
    Op::DropEvacuating { key, instance }
}

#[test]
fn evacuating_rows_stay_until_their_use_is_over(rt: HostRuntime) -> Result<(), Fail> {
    let names = read_names()?;
    let (process, a, b) = (names.web, names.a, names.b);
    let (key, instance) = (first(process), container(2));
    let moved = [
        desire(process, 1),
        make(process),
        join(a, 30),
        join(b, 90),
        start(process, 2, a),
        at(0, Op::Evacuate { key, instance }),
    ];
    let replaced = [
        moved[0],
        moved[1],
        moved[2],
        moved[3],
        moved[4],
        moved[5],
        start(process, 3, b),
    ];
    let forgotten = [
        moved[0],
        moved[1],
        moved[2],
        moved[3],
        moved[4],
        moved[5],
        at(0, Op::Undesire { process }),
        fresh(process, 0),
    ];
    let dropped = [drop_old(process)];
    let lost = [Op::Vanish { cell: a }, dropped[0]];
    let (key, instance) = (first(process), None);
    let removed = [Op::Remove { key, instance }, dropped[0]];
    let cases = [
        (moved.as_slice(), 30, lost.as_slice()),
        (moved.as_slice(), 29, &[]),
        (replaced.as_slice(), 29, dropped.as_slice()),
        (forgotten.as_slice(), 29, removed.as_slice()),
        (&forgotten[..7], 29, &[]),
    ];
    each_asks(&rt, rt.alloc(), &cases)
}

#[test]
fn suspected_rows_stay_until_their_use_is_over(rt: HostRuntime) -> Result<(), Fail> {
    let names = read_names()?;
    let (process, a, b) = (names.web, names.a, names.b);
    let silent = [
        desire(process, 1),
        make(process),
        join(a, 30),
        join(b, 90),
        start(process, 2, a),
        at(30, suspicion_of(process)),
        at(30, Op::Vanish { cell: a }),
    ];
    let six = [
        silent[0], silent[1], silent[2], silent[3], silent[4], silent[5],
    ];
    let replaced = [
        six[0],
        six[1],
        six[2],
        six[3],
        six[4],
        six[5],
        start(process, 3, b),
    ];
    let forgotten = [
        six[0],
        six[1],
        six[2],
        six[3],
        six[4],
        six[5],
        at(30, Op::Undesire { process }),
    ];
    let anew = [six[0], six[1], six[2], six[3], six[4], six[5], join(a, 90)];
    let dropped = [end_of_suspicion(process)];
    let vanished = [Op::Vanish { cell: a }, dropped[0]];
    let cases = [
        (replaced.as_slice(), 31, vanished.as_slice()),
        (forgotten.as_slice(), 31, vanished.as_slice()),
        (anew.as_slice(), 31, dropped.as_slice()),
        (silent.as_slice(), 31, &[]),
    ];
    each_asks(&rt, rt.alloc(), &cases)
}

#[test]
fn tasks_are_given_up(rt: HostRuntime) -> Result<(), Fail> {
    let names = read_names()?;
    let (name, cell) = (names.web, names.a);
    let new = [new_task(name)];
    let running = [new_task(name), join(cell, 30), start_task(name, 1, cell)];
    let cancels = [Op::CancelTask { name }];
    let lost = [Op::Vanish { cell }, Op::CancelTask { name }];
    let cases = [
        (new.as_slice(), 1800, cancels.as_slice()),
        (new.as_slice(), 1799, &[]),
        (running.as_slice(), 30, lost.as_slice()),
        (running.as_slice(), 29, &[]),
    ];
    each_asks(&rt, rt.alloc(), &cases)
}

#[test]
fn outcomes_of_tasks_are_told_again(rt: HostRuntime) -> Result<(), Fail> {
    let names = read_names()?;
    let (name, cell) = (names.web, names.a);
    let (instance, failed) = (container(1), false);
    let end = at(
        0,
        Op::CompleteTask {
            name,
            instance,
            failed,
        },
    );
    let completed = [
        new_task(name),
        join(cell, 900),
        start_task(name, 1, cell),
        end,
    ];
    let resolving = [
        completed[0],
        completed[1],
        completed[2],
        completed[3],
        at(0, Op::ResolveTask { name }),
    ];
    let expires = [Op::ExpireTask { name }];
    let kicks = [Op::KickTask { name }];
    let cases = [
        (completed.as_slice(), 120, expires.as_slice()),
        (completed.as_slice(), 119, &[]),
        (resolving.as_slice(), 30, kicks.as_slice()),
        (resolving.as_slice(), 29, &[]),
    ];
    each_asks(&rt, rt.alloc(), &cases)
}
