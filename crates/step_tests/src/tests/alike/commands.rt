//! Commands for the tests, and how the life of a board begins.
use bbs_model::{Command, Op};
use cell_records::Amounts;
use crash_backoff::Moment;
use diego_names::{Instance, Key, Name};
use lrp_records::Desired;
use std::alloc::Global;
use std::test::Fail;

pub(crate) fn at(now: u32, op: Op) -> Command {
    Command {
        now: Moment(now),
        op,
    }
}

// These operations at these seconds.
pub(crate) fn commands_of(alloc: Global, cases: &[(u32, Op)]) -> Result<Vec<Command>, Fail> {
    let mut commands = Vec::new(alloc);
    for (now, op) in cases {
        commands.push(at(*now, *op))?;
    }
    Ok(commands)
}

// The names of two cells, a process and two tasks.
#[derive(Clone, Copy)]
pub(crate) struct Names {
    pub(crate) c1: Name,
    pub(crate) c2: Name,
    pub(crate) web: Name,
    pub(crate) t1: Name,
    pub(crate) t2: Name,
}

pub(crate) fn all_names() -> Result<Names, Fail> {
    Ok(Names {
        c1: Name::read(b"c1")?,
        c2: Name::read(b"c2")?,
        web: Name::read(b"web")?,
        t1: Name::read(b"t1")?,
        t2: Name::read(b"t2")?,
    })
}

// The container of that number, on the first cell to join.
pub(crate) fn container(number: u32) -> Instance {
    Instance { epoch: 0, number }
}

// A process that wants so many instances.
pub(crate) fn process(process: Name, instances: u32) -> Desired {
    Desired {
        process,
        domain: process,
        instances,
        memory: 64,
        disk: 128,
        tag: None,
        route: None,
        port: 8080,
    }
}

pub(crate) fn join(cell: Name) -> Op {
    let totals = Amounts {
        memory: 1024,
        disk: 4096,
        containers: 10,
    };
    Op::Join {
        cell,
        zone: cell,
        tag: None,
        totals,
        ttl: 600,
    }
}

fn renew(cell: Name, epoch: u64) -> Op {
    let ttl = 900;
    Op::Renew { cell, epoch, ttl }
}

pub(crate) fn desire(process_name: Name) -> Op {
    let desired = process(process_name, 2);
    Op::Desire { desired }
}

fn update(process: Name, instances: u32) -> Op {
    Op::Update {
        process,
        instances,
        route: Some(process),
        port: 80,
    }
}

pub(crate) fn make(process: Name, index: u32) -> Op {
    let key = Key { process, index };
    Op::Make { key }
}

// Two cells come, and a process is wanted.
pub(crate) fn beginning(n: &Names) -> [(u32, Op); 10] {
    [
        (0, join(n.c1)),
        (0, join(n.c2)),
        (1, renew(n.c1, 0)),
        (1, renew(n.c1, 0)),
        (1, renew(n.c1, 7)),
        (1, desire(n.web)),
        (1, desire(n.web)),
        (1, update(n.web, 1001)),
        (1, update(n.web, 3)),
        (1, make(n.web, 3)),
    ]
}
