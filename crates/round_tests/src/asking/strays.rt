//! Which containers are strays.
use super::answers::{held, stray};
use super::{at, container, desire, first, join, make, read_names, start};
use bbs_model::Op;
use cell_records::ContainerState;
use diego_names::{Instance, Name};
use std::test::Fail;

const RUNNING: ContainerState = ContainerState::Running;

const RESERVED: ContainerState = ContainerState::Reserved;

const ENDED: ContainerState = ContainerState::Completed { failed: false };

#[test]
fn a_container_that_no_row_names_is_a_stray(rt: HostRuntime) -> Result<(), Fail> {
    let alloc = rt.alloc();
    let web = read_names()?.web;
    let (one, other) = (Name::read(b"c1")?, Name::read(b"c2")?);
    let reserved = [held(web, 0, 1, RESERVED)];
    let told = [(one, 0, reserved.as_slice()), (other, 0, &[])];
    assert!(rt; stray(alloc, &[], &told, &[(one, container(0))])?);
    Ok(())
}

#[test]
fn a_container_that_a_row_names_is_none_unless_it_ended(rt: HostRuntime) -> Result<(), Fail> {
    let alloc = rt.alloc();
    let names = read_names()?;
    let (web, cell) = (names.web, names.a);
    let running = [
        desire(web, 1),
        make(web),
        join(cell, 90),
        start(web, 2, cell),
    ];
    let runs = [held(web, 2, 1, RUNNING)];
    let told = [(cell, 2, runs.as_slice()), (names.b, 3, &[])];
    assert!(rt; stray(alloc, &running, &told, &[])?);
    let ended = [held(web, 2, 1, ENDED)];
    let told = [(cell, 2, ended.as_slice()), (names.b, 3, &[])];
    assert!(rt; stray(alloc, &running, &told, &[(cell, container(2))])?);
    Ok(())
}

#[test]
fn a_container_that_a_suspect_row_names_is_none(rt: HostRuntime) -> Result<(), Fail> {
    let alloc = rt.alloc();
    let names = read_names()?;
    let (web, cell) = (names.web, names.a);
    let (key, instance) = (first(web), container(2));
    let suspected = [
        desire(web, 1),
        make(web),
        join(cell, 90),
        start(web, 2, cell),
        at(90, Op::Suspect { key, instance }),
    ];
    let runs = [held(web, 2, 1, RUNNING)];
    assert!(rt; stray(alloc, &suspected, &[(cell, 2, runs.as_slice())], &[])?);
    Ok(())
}

#[test]
fn strays_stand_by_cell_and_number(rt: HostRuntime) -> Result<(), Fail> {
    let alloc = rt.alloc();
    let names = read_names()?;
    let web = names.web;
    let on_b = [held(web, 4, 1, RUNNING)];
    let on_a = [held(web, 5, 8, RUNNING), held(web, 5, 3, ENDED)];
    let told = [(names.b, 4, on_b.as_slice()), (names.a, 5, on_a.as_slice())];
    let (epoch, third, eighth) = (5, 3, 8);
    let found = [
        (
            names.a,
            Instance {
                epoch,
                number: third,
            },
        ),
        (
            names.a,
            Instance {
                epoch,
                number: eighth,
            },
        ),
        (names.b, container(4)),
    ];
    assert!(rt; stray(alloc, &[], &told, &found)?);
    Ok(())
}
