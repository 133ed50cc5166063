//! A cell that goes silent, and a domain that is forgotten.
use crate::tests::alike::commands::{Names, desire, join, make};
use bbs_model::Op;
use diego_names::{Instance, Key, Name};

// The container of that number, on a cell that is the 37th transition.
fn late(number: u32) -> Instance {
    Instance { epoch: 36, number }
}

fn start(n: &Names, number: u32) -> Op {
    Op::Start {
        key: first(n.web),
        instance: late(number),
        cell: n.c1,
    }
}

fn first(process: Name) -> Key {
    Key { process, index: 0 }
}

fn suspect(process: Name, number: u32) -> Op {
    let (key, instance) = (first(process), late(number));
    Op::Suspect { key, instance }
}

fn drop_suspect(process: Name, number: u32) -> Op {
    let (key, instance) = (first(process), late(number));
    Op::DropSuspect { key, instance }
}

// An instance is suspected, runs anew on its cell that came back, and is suspected again.
pub(crate) fn suspicions(n: &Names) -> [(u32, Op); 13] {
    [
        (1000, join(n.c1)),
        (1000, desire(n.web)),
        (1000, make(n.web, 0)),
        (1000, start(n, 1)),
        (1599, suspect(n.web, 1)),
        (1600, suspect(n.web, 1)),
        (1600, suspect(n.web, 1)),
        (1601, drop_suspect(n.web, 2)),
        (1602, start(n, 2)),
        (1603, suspect(n.web, 2)),
        (1603, suspect(n.web, 3)),
        (1604, drop_suspect(n.web, 2)),
        (1604, drop_suspect(n.web, 2)),
    ]
}

fn fresh(domain: Name, ttl: u32) -> Op {
    Op::Fresh { domain, ttl }
}

// A domain is fresh for ever, then for ten seconds.
pub(crate) fn domains(domain: Name) -> [(u32, Op); 7] {
    [
        (1700, fresh(domain, 0)),
        (1700, fresh(domain, 0)),
        (1700, Op::Forget { domain }),
        (1700, fresh(domain, 10)),
        (1709, Op::Forget { domain }),
        (1710, Op::Forget { domain }),
        (1710, Op::Forget { domain }),
    ]
}
