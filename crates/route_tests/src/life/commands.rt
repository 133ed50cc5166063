//! Commands that change processes and instances, drawn by chance.
ghost use Rattle.std.specs.Prelude.{◌<◌};

use crate::making::wanted;
use bbs_model::Op;
use cell_records::Amounts;
use diego_names::{Instance, Key, Name};
use lrp_records::Desired;
use std::test::Fail;

// The names of two processes and two cells.
#[derive(Clone, Copy)]
pub(super) struct Names {
    pub(super) a: Name,
    pub(super) b: Name,
    pub(super) c1: Name,
    pub(super) c2: Name,
}

pub(super) fn all_names() -> Result<Names, Fail> {
    Ok(Names {
        a: Name::read(b"a")?,
        b: Name::read(b"b")?,
        c1: Name::read(b"c1")?,
        c2: Name::read(b"c2")?,
    })
}

// The next of a row of numbers that look like chance, below a bound.
fn draw(seed: &mut u32, below: u32) -> u32
    requires { 0 < below }
    ensures { result < below }
{
    *seed = seed.wrapping_mul(1_664_525).wrapping_add(1_013_904_223);
    (*seed >> 8) % below
}

fn process_of(n: &Names, seed: &mut u32) -> Name {
    if draw(seed, 2) == 0 { n.a } else { n.b }
}

// A cell, and the one container of this instance on it.
fn place_of(n: &Names, index: u32, seed: &mut u32) -> (Name, Instance) {
    let number = index;
    if draw(seed, 2) == 0 {
        (n.c1, Instance { epoch: 0, number })
    } else {
        (n.c2, Instance { epoch: 1, number })
    }
}

pub(super) fn join(cell: Name, ttl: u32) -> Op {
    Op::Join {
        cell,
        zone: cell,
        tag: None,
        totals: Amounts {
            memory: 1024,
            disk: 4096,
            containers: 100,
        },
        ttl,
    }
}

fn update(n: &Names, process: Name, seed: &mut u32) -> Op {
    let route = match draw(seed, 4) {
        0 => None,
        1 => Some(n.a),
        _ => Some(process),
    };
    let port = if draw(seed, 2) == 0 { 80 } else { 81 };
    Op::Update {
        process,
        instances: 3,
        route,
        port,
    }
}

fn desire(process: Name) -> Op {
    Op::Desire {
        desired: Desired {
            instances: 3,
            ..wanted(process, Some(process), 80)
        },
    }
}

// What becomes of an instance.
fn move_of(key: Key, instance: Instance, cell: Name, seed: &mut u32) -> Op {
    match draw(seed, 14) {
        0 | 1 => Op::Make { key },
        2 => Op::Claim {
            key,
            instance,
            cell,
        },
        3 => Op::Crash { key, instance },
        4 => Op::Restart { key },
        5 => Op::Evacuate { key, instance },
        6 => Op::DropEvacuating { key, instance },
        7 => Op::Suspect { key, instance },
        8 => Op::DropSuspect { key, instance },
        9 => Op::Remove {
            key,
            instance: Some(instance),
        },
        _ => Op::Start {
            key,
            instance,
            cell,
        },
    }
}

pub(super) fn op_of(n: &Names, seed: &mut u32) -> Op {
    let process = process_of(n, seed);
    let index = draw(seed, 2);
    let (cell, instance) = place_of(n, index, seed);
    match draw(seed, 16) {
        0 | 1 => update(n, process, seed),
        2 | 3 => desire(process),
        4 => Op::Undesire { process },
        _ => move_of(Key { process, index }, instance, cell, seed),
    }
}
