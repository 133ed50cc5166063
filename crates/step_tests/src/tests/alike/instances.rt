//! What happens to the instances of a process, up to the end of it.
use crate::tests::alike::commands::{Names, container, make};
use bbs_model::Op;
use diego_names::{Instance, Key, Name};

fn first(process: Name) -> Key {
    Key { process, index: 0 }
}

// The first instance of a process, in the container of that number.
fn held(process: Name, number: u32) -> (Key, Instance) {
    (first(process), container(number))
}

fn place_fail(process: Name) -> Op {
    let key = first(process);
    Op::PlaceFail { key }
}

fn claim(n: &Names, number: u32) -> Op {
    let (key, instance) = held(n.web, number);
    let cell = n.c1;
    Op::Claim {
        key,
        instance,
        cell,
    }
}

fn unclaim(process: Name, number: u32) -> Op {
    let (key, instance) = held(process, number);
    Op::Unclaim { key, instance }
}

fn crash(process: Name, number: u32) -> Op {
    let (key, instance) = held(process, number);
    Op::Crash { key, instance }
}

fn restart(process: Name) -> Op {
    let key = first(process);
    Op::Restart { key }
}

// An instance crashes until it waits, and is given back.
pub(crate) fn crashes(n: &Names) -> [(u32, Op); 15] {
    [
        (2, make(n.web, 0)),
        (2, place_fail(n.web)),
        (2, place_fail(n.web)),
        (2, claim(n, 1)),
        (2, crash(n.web, 1)),
        (2, claim(n, 1)),
        (2, crash(n.web, 1)),
        (2, claim(n, 1)),
        (2, crash(n.web, 1)),
        (2, claim(n, 1)),
        (2, crash(n.web, 1)),
        (3, restart(n.web)),
        (900, restart(n.web)),
        (901, claim(n, 1)),
        (901, unclaim(n.web, 1)),
    ]
}

fn start(n: &Names, number: u32) -> Op {
    let (key, instance) = held(n.web, number);
    let cell = n.c1;
    Op::Start {
        key,
        instance,
        cell,
    }
}

fn drain(cell: Name) -> Op {
    Op::Drain { cell, epoch: 0 }
}

fn evacuate(process: Name, number: u32) -> Op {
    let (key, instance) = held(process, number);
    Op::Evacuate { key, instance }
}

fn drop_evacuating(process: Name, number: u32) -> Op {
    let (key, instance) = held(process, number);
    Op::DropEvacuating { key, instance }
}

fn remove(process: Name, instance: Option<Instance>) -> Op {
    let key = first(process);
    Op::Remove { key, instance }
}

// An instance runs, evacuates and is dropped, with its process and a cell.
pub(crate) fn end_of_a_process(n: &Names) -> [(u32, Op); 12] {
    [
        (902, start(n, 2)),
        (902, start(n, 2)),
        (903, drain(n.c1)),
        (903, evacuate(n.web, 2)),
        (903, evacuate(n.web, 2)),
        (903, claim(n, 3)),
        (904, remove(n.web, None)),
        (904, drop_evacuating(n.web, 2)),
        (904, drop_evacuating(n.web, 2)),
        (904, remove(n.web, Some(container(3)))),
        (904, Op::Undesire { process: n.web }),
        (904, Op::Vanish { cell: n.c2 }),
    ]
}
