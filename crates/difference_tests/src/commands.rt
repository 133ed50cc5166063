//! Commands by chance, of every kind, for boards of a few cells, processes, tasks and domains.

use crate::dice::Dice;
use crate::names::Names;
use crate::next::{next_of_row, next_of_task};
use bbs_model::{Command, Op, Rows};
use cell_records::Amounts;
use crash_backoff::Moment;
use diego_names::{Instance, Key, Name};
use lrp_records::{Desired, Presence};

pub(crate) fn one_of(dice: &mut Dice, names: &(Name, Name)) -> Name {
    if dice.roll(2) == 0 { names.0 } else { names.1 }
}

pub(crate) fn a_cell(dice: &mut Dice, n: &Names) -> Name {
    match dice.roll(3) {
        0 => n.cells.0,
        1 => n.cells.1,
        _ => n.cells.2,
    }
}

fn a_key(dice: &mut Dice, n: &Names) -> Key {
    Key {
        process: one_of(dice, &n.processes),
        index: dice.roll(3),
    }
}

// The epoch of a cell, and 0 if it has no row.
pub(crate) fn epoch_of(rows: &Rows, cell: &Name) -> u64 {
    for row in rows.cells.items() {
        if row.cell == *cell {
            return row.epoch;
        }
    }
    0
}

fn a_presence(dice: &mut Dice) -> Presence {
    match dice.roll(4) {
        0 => Presence::Evacuating,
        1 => Presence::Suspect,
        _ => Presence::Ordinary,
    }
}

// No row has it.
const NOBODY: Instance = Instance {
    epoch: 0,
    number: 99,
};

// The container of the row at a place, or else one that no row has.
fn holder_at(rows: &Rows, key: &Key, presence: Presence) -> Instance {
    for row in rows.actual.items() {
        if row.key == *key && row.presence == presence {
            return row.state.holder().unwrap_or(NOBODY);
        }
    }
    NOBODY
}

fn a_desire(dice: &mut Dice, n: &Names) -> Op {
    Op::Desire {
        desired: Desired {
            process: one_of(dice, &n.processes),
            domain: one_of(dice, &n.domains),
            instances: dice.roll(4),
            memory: 64,
            disk: 128,
            tag: None,
            route: None,
            port: 8080,
        },
    }
}

fn an_update(dice: &mut Dice, n: &Names) -> Op {
    Op::Update {
        process: one_of(dice, &n.processes),
        instances: dice.roll(4),
        route: None,
        port: 8080,
    }
}

fn a_join(dice: &mut Dice, n: &Names) -> Op {
    let cell = a_cell(dice, n);
    Op::Join {
        cell,
        zone: cell,
        tag: None,
        totals: Amounts {
            memory: 1024,
            disk: 4096,
            containers: 10,
        },
        ttl: 60 + dice.roll(50),
    }
}

fn a_lease(dice: &mut Dice, rows: &Rows, n: &Names) -> Op {
    let cell = a_cell(dice, n);
    let epoch = epoch_of(rows, &cell);
    match dice.roll(4) {
        0 => Op::Drain { cell, epoch },
        1 => Op::Vanish { cell },
        _ => Op::Renew {
            cell,
            epoch,
            ttl: 20 + dice.roll(50),
        },
    }
}

fn a_domain(dice: &mut Dice, n: &Names) -> Op {
    let domain = one_of(dice, &n.domains);
    match dice.roll(4) {
        0 => Op::Forget { domain },
        1 => Op::Fresh { domain, ttl: 0 },
        _ => Op::Fresh {
            domain,
            ttl: 1 + dice.roll(30),
        },
    }
}

// A claim or a start on a cell.
fn a_placing(dice: &mut Dice, rows: &Rows, n: &Names) -> Op {
    let key = a_key(dice, n);
    let cell = a_cell(dice, n);
    let instance = Instance {
        epoch: epoch_of(rows, &cell),
        number: dice.roll(5),
    };
    if dice.roll(2) == 0 {
        Op::Claim {
            key,
            instance,
            cell,
        }
    } else {
        Op::Start {
            key,
            instance,
            cell,
        }
    }
}

// A move by the container that has the ORDINARY row.
fn a_move(dice: &mut Dice, key: Key, instance: Instance) -> Op {
    match dice.roll(7) {
        0 => Op::Unclaim { key, instance },
        1 => Op::Remove {
            key,
            instance: Some(instance),
        },
        2 => Op::Evacuate { key, instance },
        3 => Op::Suspect { key, instance },
        _ => Op::Crash { key, instance },
    }
}

fn an_end(dice: &mut Dice, rows: &Rows, n: &Names) -> Op {
    let key = a_key(dice, n);
    let presence = a_presence(dice);
    let instance = holder_at(rows, &key, presence);
    match presence {
        Presence::Ordinary => a_move(dice, key, instance),
        Presence::Evacuating => Op::DropEvacuating { key, instance },
        Presence::Suspect => Op::DropSuspect { key, instance },
    }
}

fn a_row(dice: &mut Dice, n: &Names) -> Op {
    let key = a_key(dice, n);
    match dice.roll(8) {
        0 => Op::Restart { key },
        1 => Op::PlaceFail { key },
        2 => Op::Remove {
            key,
            instance: None,
        },
        _ => Op::Make { key },
    }
}

fn a_task(dice: &mut Dice, rows: &Rows, n: &Names) -> Op {
    let name = one_of(dice, &n.tasks);
    let cell = a_cell(dice, n);
    let instance = Instance {
        epoch: epoch_of(rows, &cell),
        number: 7,
    };
    match dice.roll(8) {
        0 => Op::CompleteTask {
            name,
            instance,
            failed: false,
        },
        1 => Op::CancelTask { name },
        2 => Op::ResolveTask { name },
        3 => Op::DeleteTask { name },
        4 => Op::KickTask { name },
        5 => Op::ExpireTask { name },
        6 => Op::StartTask {
            name,
            instance,
            cell,
        },
        _ => Op::NewTask {
            name,
            memory: 64,
            disk: 128,
            tag: None,
        },
    }
}

fn an_op(dice: &mut Dice, rows: &Rows, n: &Names) -> Op {
    match dice.roll(28) {
        0 => a_desire(dice, n),
        1 => an_update(dice, n),
        2 => Op::Undesire {
            process: one_of(dice, &n.processes),
        },
        3 => a_join(dice, n),
        4 | 5 => a_lease(dice, rows, n),
        6 => a_domain(dice, n),
        7 | 8 | 9 => a_task(dice, rows, n),
        10 | 11 | 12 => a_placing(dice, rows, n),
        13 | 14 | 15 => an_end(dice, rows, n),
        16 | 17 | 18 => a_row(dice, n),
        19 | 20 => next_of_task(dice, rows, n),
        _ => next_of_row(dice, rows, n),
    }
}

// A command by chance, some seconds after that moment.
pub(crate) fn a_command(dice: &mut Dice, rows: &Rows, n: &Names, at: u32) -> Command {
    let now = Moment(at.saturating_add(dice.roll(4)));
    let op = an_op(dice, rows, n);
    Command { now, op }
}
