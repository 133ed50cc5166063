//! What a board has at the keys of a command, by plain scans.
ghost use Rattle.std.specs.Option.{option_and_then};
ghost use Rattle.std.specs.Prelude.{◌≡◌, ◌≤◌, sum_by};
ghost use Rattle.bbs_model.specs.Found.{found_by, process_in, evacuating_in, suspect_in, task_in, looked_cell, domain_in, ordinary_of};
ghost use Rattle.bbs_model.specs.Tables.{counts_of, find_desired, find_actual, find_task, find_cell, find_domain};
ghost use Rattle.bbs_model.specs.Valid.{IsValid};
ghost use Rattle.lrp_records.specs.declared.desired.Desired.{Desired as ADesired};
ghost use Rattle.lrp_records.specs.declared.presence.Presence.TheVariants.{Evacuating, Suspect};

use bbs_model::{Counts, DomainRow, Found, Op, Rows, find_in};
use cell_records::CellRow;
use lrp_records::{Actual, Desired, Presence};
use task_records::Task;

/// How many rows there are.
pub fn counts(rows: &Rows) -> Counts
    requires { IsValid rows.now }
    ensures { result ≡ counts_of rows.now }
{
    Counts {
        desired: rows.desired.len() as u32,
        wanted: wanted(rows.desired.items()),
        actual: rows.actual.len() as u32,
        tasks: rows.tasks.len() as u32,
        cells: rows.cells.len() as u32,
        domains: rows.domains.len() as u32,
    }
}

/// What the board has at the keys of an operation.
pub fn found(rows: &Rows, op: &Op) -> Found
    requires { IsValid rows.now }
    ensures { result ≡ found_by rows.now op.now }
{
    let ordinary = ordinary_for(rows, op);
    Found {
        desired: desired_for(rows, op),
        ordinary,
        evacuating: evacuating_for(rows, op),
        suspect: suspect_for(rows, op),
        task: task_for(rows, op),
        cell: cell_for(rows, op, &ordinary),
        domain: domain_for(rows, op),
        counts: counts(rows),
        next: rows.next,
    }
}

fn desired_for(rows: &Rows, op: &Op) -> Option<Desired>
    ensures { result ≡ option_and_then (find_desired rows.now) (process_in op.now) }
{
    match op.process() {
        Some(process) => find_in(rows.desired.items(), &process),
        None => None,
    }
}

fn ordinary_for(rows: &Rows, op: &Op) -> Option<Actual>
    ensures { result ≡ ordinary_of rows.now op.now }
{
    match op.key() {
        Some(key) => find_in(rows.actual.items(), &(key, Presence::Ordinary)),
        None => None,
    }
}

fn evacuating_for(rows: &Rows, op: &Op) -> Option<Actual>
    ensures { result
        ≡ option_and_then (λ key. find_actual rows.now key Evacuating) (evacuating_in op.now) }
{
    match op.evacuating() {
        Some(key) => find_in(rows.actual.items(), &(key, Presence::Evacuating)),
        None => None,
    }
}

fn suspect_for(rows: &Rows, op: &Op) -> Option<Actual>
    ensures { result
        ≡ option_and_then (λ key. find_actual rows.now key Suspect) (suspect_in op.now) }
{
    match op.suspect() {
        Some(key) => find_in(rows.actual.items(), &(key, Presence::Suspect)),
        None => None,
    }
}

fn task_for(rows: &Rows, op: &Op) -> Option<Task>
    ensures { result ≡ option_and_then (find_task rows.now) (task_in op.now) }
{
    match op.task() {
        Some(name) => find_in(rows.tasks.items(), &name),
        None => None,
    }
}

/// A suspicion looks at the cell of the ORDINARY row, which has to be read first.
fn cell_for(rows: &Rows, op: &Op, ordinary: &Option<Actual>) -> Option<CellRow>
    ensures { result
        ≡ option_and_then (find_cell rows.now) (looked_cell op.now ordinary.now) }
{
    match op.looked_cell(ordinary) {
        Some(cell) => find_in(rows.cells.items(), &cell),
        None => None,
    }
}

fn domain_for(rows: &Rows, op: &Op) -> Option<DomainRow>
    ensures { result ≡ option_and_then (find_domain rows.now) (domain_in op.now) }
{
    match op.domain() {
        Some(domain) => find_in(rows.domains.items(), &domain),
        None => None,
    }
}

/// The instances that all these processes want together.
fn wanted(rows: &[Desired]) -> u32
    requires { sum_by (λ (d : ADesired). d.instances) rows.now ≤ 50000 }
    ensures { result ≡ sum_by (λ (d : ADesired). d.instances) rows.now }
{
    rows.iter().map(|row| row.instances).sum()
}
