//! Each line of what is asked by answers, as a case.
use super::answers::{held, held_task, plans};
use super::{
    Names, at, container, desire, first, join, make, new_task, read_names, start, start_task,
};
use bbs_model::{Command, Op};
use cell_records::{Container, ContainerState};
use diego_names::{Name, OutOfMemory};
use std::alloc::Global;
use std::test::Fail;

const RUNNING: ContainerState = ContainerState::Running;

const ENDED: ContainerState = ContainerState::Completed { failed: true };

/// What is asked where a cell answers with this epoch and these.
fn asked_of(
    alloc: Global,
    cell: Name,
    epoch: u64,
    done: &[Command],
    holds: &[Container],
    asked: &[Op],
) -> Result<bool, OutOfMemory> {
    plans(alloc, done, &[(cell, epoch, holds)], asked)
}

/// What is asked where cell a joined as the third command and holds these.
fn asked_of_a(
    alloc: Global,
    names: &Names,
    done: &[Command],
    holds: &[Container],
    asked: &[Op],
) -> Result<bool, OutOfMemory> {
    asked_of(alloc, names.a, 2, done, holds, asked)
}

#[test]
fn a_row_whose_container_is_gone_is_unclaimed(rt: HostRuntime) -> Result<(), Fail> {
    let alloc = rt.alloc();
    let names = read_names()?;
    let web = names.web;
    let (key, instance) = (first(web), container(2));
    let cell = names.a;
    let claim = at(
        0,
        Op::Claim {
            key,
            instance,
            cell,
        },
    );
    let claimed = [desire(web, 1), make(web), join(cell, 90), claim];
    let running = [claimed[0], claimed[1], claimed[2], start(web, 2, cell)];
    let gone = [Op::Unclaim { key, instance }];
    assert!(rt; asked_of_a(alloc, &names, &claimed, &[], &gone)?);
    assert!(rt; asked_of_a(alloc, &names, &running, &[], &gone)?);
    let others = [held(names.b, 2, 1, RUNNING), held(web, 2, 2, RUNNING)];
    assert!(rt; asked_of_a(alloc, &names, &running, &others, &gone)?);
    Ok(())
}

#[test]
fn a_row_whose_container_ended_has_crashed(rt: HostRuntime) -> Result<(), Fail> {
    let alloc = rt.alloc();
    let names = read_names()?;
    let (web, cell) = (names.web, names.a);
    let (key, instance) = (first(web), container(2));
    let running = [
        desire(web, 1),
        make(web),
        join(cell, 90),
        start(web, 2, cell),
    ];
    let crash = [Op::Crash { key, instance }];
    assert!(rt; asked_of_a(alloc, &names, &running, &[held(web, 2, 1, ENDED)], &crash)?);
    assert!(rt; asked_of_a(alloc, &names, &running, &[held(web, 2, 1, RUNNING)], &[])?);
    let fallen = [held(names.b, 2, 7, RUNNING), held(web, 2, 1, ENDED)];
    assert!(rt; asked_of_a(alloc, &names, &running, &fallen, &crash)?);
    Ok(())
}

#[test]
fn nothing_is_asked_of_a_row_whose_cell_gave_no_answer(rt: HostRuntime) -> Result<(), Fail> {
    let alloc = rt.alloc();
    let names = read_names()?;
    let (web, cell) = (names.web, names.a);
    let running = [
        desire(web, 1),
        make(web),
        join(cell, 90),
        start(web, 2, cell),
    ];
    assert!(rt; asked_of(alloc, cell, 1, &running, &[], &[])?);
    assert!(rt; asked_of(alloc, names.b, 2, &running, &[], &[])?);
    Ok(())
}

#[test]
fn an_evacuating_row_without_its_container_is_dropped(rt: HostRuntime) -> Result<(), Fail> {
    let alloc = rt.alloc();
    let names = read_names()?;
    let (web, cell) = (names.web, names.a);
    let (key, instance) = (first(web), container(2));
    let moved = [
        desire(web, 1),
        make(web),
        join(cell, 90),
        start(web, 2, cell),
        at(0, Op::Evacuate { key, instance }),
    ];
    let dropped = [Op::DropEvacuating { key, instance }];
    assert!(rt; asked_of_a(alloc, &names, &moved, &[], &dropped)?);
    assert!(rt; asked_of_a(alloc, &names, &moved, &[held(web, 2, 1, ENDED)], &dropped)?);
    assert!(rt; asked_of_a(alloc, &names, &moved, &[held(web, 2, 1, RUNNING)], &[])?);
    Ok(())
}

#[test]
fn a_suspected_row_without_its_container_is_dropped(rt: HostRuntime) -> Result<(), Fail> {
    let alloc = rt.alloc();
    let names = read_names()?;
    let (web, cell) = (names.web, names.a);
    let (key, instance) = (first(web), container(2));
    let silent = [
        desire(web, 1),
        make(web),
        join(cell, 30),
        start(web, 2, cell),
        at(30, Op::Suspect { key, instance }),
    ];
    let dropped = [Op::DropSuspect { key, instance }];
    assert!(rt; asked_of_a(alloc, &names, &silent, &[], &dropped)?);
    assert!(rt; asked_of_a(alloc, &names, &silent, &[held(web, 2, 1, ENDED)], &dropped)?);
    assert!(rt; asked_of_a(alloc, &names, &silent, &[held(web, 2, 1, RUNNING)], &[])?);
    Ok(())
}

#[test]
fn a_task_is_given_up_or_has_the_outcome_of_its_container(rt: HostRuntime) -> Result<(), Fail> {
    let alloc = rt.alloc();
    let names = read_names()?;
    let (name, cell) = (names.web, names.a);
    let running = [
        desire(names.b, 1),
        new_task(name),
        join(cell, 90),
        start_task(name, 2, cell),
    ];
    assert!(rt; asked_of_a(alloc, &names, &running, &[], &[Op::CancelTask { name }])?);
    let outcome = Op::CompleteTask {
        name,
        instance: container(2),
        failed: true,
    };
    let ended = [held_task(name, 2, 1, ENDED)];
    assert!(rt; asked_of_a(alloc, &names, &running, &ended, &[outcome])?);
    let runs = [held_task(name, 2, 1, RUNNING)];
    assert!(rt; asked_of_a(alloc, &names, &running, &runs, &[])?);
    Ok(())
}
