//! What a store has at the keys of a command, by as many look-ups as it names keys.
ghost use Rattle.std.specs.Prelude.{◌≡◌};
ghost use Rattle.std.specs.Option.{option_and_then};
ghost use Rattle.bbs_model.specs.Found.{found_by};
ghost use Rattle.bbs_model.specs.Tables.{find_desired, find_actual, find_task, find_cell, find_domain};
ghost use Rattle.bbs_model.specs.Valid.{IsValid};

use bbs_model::{DomainRow, Found, Op, RowStore};
use cell_records::CellRow;
use diego_names::{Key, Name};
use lrp_records::{Actual, Desired, Presence};
use task_records::Task;

fn desired_at<T: RowStore>(store: &T, process: Option<Name>) -> Option<Desired>
    ensures { result ≡ option_and_then (find_desired (T.state store.now)) process }
{
    match process {
        Some(process) => store.desired(&process),
        None => None,
    }
}

fn actual_at<T: RowStore>(store: &T, key: Option<Key>, presence: Presence) -> Option<Actual>
    ensures { result ≡ option_and_then (λ k. find_actual (T.state store.now) k presence) key }
{
    match key {
        Some(key) => store.actual(&key, presence),
        None => None,
    }
}

fn task_at<T: RowStore>(store: &T, name: Option<Name>) -> Option<Task>
    ensures { result ≡ option_and_then (find_task (T.state store.now)) name }
{
    match name {
        Some(name) => store.task(&name),
        None => None,
    }
}

fn cell_at<T: RowStore>(store: &T, cell: Option<Name>) -> Option<CellRow>
    ensures { result ≡ option_and_then (find_cell (T.state store.now)) cell }
{
    match cell {
        Some(cell) => store.cell(&cell),
        None => None,
    }
}

fn domain_at<T: RowStore>(store: &T, domain: Option<Name>) -> Option<DomainRow>
    ensures { result ≡ option_and_then (find_domain (T.state store.now)) domain }
{
    match domain {
        Some(domain) => store.domain(&domain),
        None => None,
    }
}

/// What the store has at the keys of a command. A suspicion doesn't name the cell whose row it looks at:
/// the ORDINARY row tells it, so that this one is read first.
pub fn look<T: RowStore>(store: &T, op: &Op) -> Found
    requires { IsValid (T.state store.now) }
    ensures { result ≡ found_by (T.state store.now) op.now }
{
    let ordinary = actual_at(store, op.key(), Presence::Ordinary);
    let cell = cell_at(store, op.looked_cell(&ordinary));
    Found {
        desired: desired_at(store, op.process()),
        ordinary,
        evacuating: actual_at(store, op.evacuating(), Presence::Evacuating),
        suspect: actual_at(store, op.suspect(), Presence::Suspect),
        task: task_at(store, op.task()),
        cell,
        domain: domain_at(store, op.domain()),
        counts: store.counts(),
        next: store.next(),
    }
}
