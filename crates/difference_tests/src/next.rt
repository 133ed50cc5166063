//! What comes next in the life of an instance or a task: most of these commands are legal.
use crate::commands::{a_cell, epoch_of, one_of};
use crate::dice::Dice;
use crate::names::Names;
use bbs_model::{Op, Rows};
use diego_names::{Instance, Key, Name};
use lrp_records::{Actual, LrpState, Presence};
use task_records::{Task, TaskState};

fn ordinary_of(rows: &Rows, key: &Key) -> Option<Actual> {
    for row in rows.actual.items() {
        if row.key == *key && row.presence == Presence::Ordinary {
            return Some(*row);
        }
    }
    None
}

fn task_of(rows: &Rows, name: &Name) -> Option<Task> {
    for row in rows.tasks.items() {
        if row.name == *name {
            return Some(*row);
        }
    }
    None
}

fn is_draining(rows: &Rows, cell: &Name) -> bool {
    for row in rows.cells.items() {
        if row.cell == *cell {
            return row.evacuating;
        }
    }
    false
}

// A container that a cell could have made now.
fn a_container(dice: &mut Dice, rows: &Rows, cell: &Name) -> Instance {
    Instance {
        epoch: epoch_of(rows, cell),
        number: dice.roll(5),
    }
}

// An instance that runs crashes, or leaves its cell, which is emptied.
fn next_of_running(dice: &mut Dice, rows: &Rows, key: Key, instance: Instance, cell: Name) -> Op {
    if dice.roll(3) > 0 {
        return Op::Crash { key, instance };
    }
    if is_draining(rows, &cell) {
        return Op::Evacuate { key, instance };
    }
    Op::Drain {
        cell,
        epoch: instance.epoch,
    }
}

fn next_by_state(dice: &mut Dice, rows: &Rows, n: &Names, key: Key, state: &LrpState) -> Op {
    match *state {
        LrpState::Unclaimed => {
            let cell = a_cell(dice, n);
            let instance = a_container(dice, rows, &cell);
            Op::Claim {
                key,
                instance,
                cell,
            }
        }
        LrpState::Claimed { instance, cell } => Op::Start {
            key,
            instance,
            cell,
        },
        LrpState::Running { instance, cell } => next_of_running(dice, rows, key, instance, cell),
        LrpState::Crashed => Op::Restart { key },
    }
}

// Of two instances alone, so that they crash often enough to wait.
pub(crate) fn next_of_row(dice: &mut Dice, rows: &Rows, n: &Names) -> Op {
    let key = Key {
        process: n.processes.0,
        index: dice.roll(2),
    };
    match ordinary_of(rows, &key) {
        None => Op::Make { key },
        Some(row) => next_by_state(dice, rows, n, key, &row.state),
    }
}

fn next_of_state(dice: &mut Dice, rows: &Rows, n: &Names, name: Name, state: &TaskState) -> Op {
    match *state {
        TaskState::Pending => {
            let cell = a_cell(dice, n);
            let instance = a_container(dice, rows, &cell);
            Op::StartTask {
                name,
                instance,
                cell,
            }
        }
        TaskState::Running { instance, .. } => Op::CompleteTask {
            name,
            instance,
            failed: false,
        },
        TaskState::Completed { .. } => Op::ResolveTask { name },
        TaskState::Resolving { .. } => Op::DeleteTask { name },
    }
}

pub(crate) fn next_of_task(dice: &mut Dice, rows: &Rows, n: &Names) -> Op {
    let name = one_of(dice, &n.tasks);
    match task_of(rows, &name) {
        None => Op::NewTask {
            name,
            memory: 64,
            disk: 128,
            tag: None,
        },
        Some(row) => next_of_state(dice, rows, n, name, &row.state),
    }
}
