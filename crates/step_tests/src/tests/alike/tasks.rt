//! The life of two tasks.
use crate::tests::alike::commands::{Names, container};
use bbs_model::Op;
use diego_names::Name;

fn new_task(name: Name) -> Op {
    Op::NewTask {
        name,
        memory: 64,
        disk: 128,
        tag: None,
    }
}

fn start_task(name: Name, cell: Name) -> Op {
    let instance = container(4);
    Op::StartTask {
        name,
        instance,
        cell,
    }
}

fn complete(name: Name) -> Op {
    Op::CompleteTask {
        name,
        instance: container(4),
        failed: false,
    }
}

// One task runs and is taken, one is given up and expires.
pub(crate) fn two_tasks(n: &Names) -> [(u32, Op); 14] {
    [
        (10, new_task(n.t1)),
        (10, new_task(n.t2)),
        (10, new_task(n.t1)),
        (11, start_task(n.t1, n.c1)),
        (12, complete(n.t1)),
        (12, complete(n.t1)),
        (13, Op::ResolveTask { name: n.t1 }),
        (42, Op::KickTask { name: n.t1 }),
        (43, Op::KickTask { name: n.t1 }),
        (44, Op::ResolveTask { name: n.t1 }),
        (45, Op::DeleteTask { name: n.t1 }),
        (46, Op::CancelTask { name: n.t2 }),
        (165, Op::ExpireTask { name: n.t2 }),
        (166, Op::ExpireTask { name: n.t2 }),
    ]
}
