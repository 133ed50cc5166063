//! The containers that cells keep for nobody.
ghost use Rattle.std.specs.Prelude.{◌≡◌, ◌++◌, IfOk, OnOk};
ghost use Rattle.std.specs.List.{flat_map};
ghost use Rattle.bbs_model.specs.Valid.{IsValid};
ghost use Rattle.task_records.specs.States.{runner_of};
ghost use Rattle.cell_records.specs.declared.job_name.JobName.TheVariants.{Lrp};
ghost use Rattle.convergence.specs.Containers as told;
ghost use Rattle.convergence.specs.Strays.{is_stray as told_stray, strays_in, strays as told_strays, stray_order};
ghost use Rattle.row_tables.specs.Table.{table};

use crate::holding::is_uncompleted;
use crate::sorted::{actual_of, task_of};
use bbs_model::Rows;
use cell_records::{Answer, Container, JobName};
use diego_names::{Instance, Key, List, Name, OutOfMemory};
use lrp_records::{Actual, Presence};
use std::alloc::Global;
use task_records::{Task, TaskState};

/// The containers of the answers that have ended or that no row names, each once and in order of
/// cell and number. It takes a few binary searches for each container, and the time of a sort of
/// what it finds.
pub fn strays(
    alloc: Global,
    rows: &Rows,
    answers: &[Answer],
) -> Result<List<(Name, Instance)>, OutOfMemory>
    requires { IsValid rows.now }
    ensures { IfOk result (λ list. list ≡ told_strays rows.now answers.now) }
{
    let mut all = Vec::new(alloc);
    for answer in answers {
        add_strays(&mut all, rows, answer)?;
    }
    Ok(List::from(in_stray_order(all)))
}

fn add_strays(
    all: &mut Vec<(Name, Instance)>,
    rows: &Rows,
    answer: &Answer,
) -> Result<(), OutOfMemory>
    requires { IsValid rows.now }
    ensures { OnOk result (all.new.items ≡ all.old.items ++ strays_in rows.now answer.now) }
{
    for container in answer.containers.items() {
        if is_stray(rows, container) {
            all.push((answer.cell, container.instance))?;
        }
    }
    Ok(())
}

/// Each once, by cell, number and epoch.
fn in_stray_order(mut all: Vec<(Name, Instance)>) -> Vec<(Name, Instance)>
    ensures { result.items ≡ table stray_order (λ s. s) all.items }
{
    all.sort_unstable_by_key(|(cell, instance)| (*cell, instance.number, instance.epoch));
    all.dedup();
    all
}

fn is_stray(rows: &Rows, container: &Container) -> bool
    requires { IsValid rows.now }
    ensures { result ≡ told_stray rows.now container.now }
{
    !is_uncompleted(container) || !is_named(rows, container)
}

fn is_named(rows: &Rows, container: &Container) -> bool
    requires { IsValid rows.now }
    ensures { result ≡ told.is_named rows.now container.now }
{
    match &container.job {
        JobName::Lrp(key) => is_instance_named(rows, key, &container.instance),
        JobName::Task(name) => task_names(&task_of(rows, name), &container.instance),
    }
}

fn is_instance_named(rows: &Rows, key: &Key, instance: &Instance) -> bool
    requires { IsValid rows.now }
    ensures { result ≡ told.is_named_for (Lrp key.now) rows.now instance.now }
{
    let ordinary = actual_of(rows, *key, Presence::Ordinary);
    let evacuating = actual_of(rows, *key, Presence::Evacuating);
    let suspect = actual_of(rows, *key, Presence::Suspect);
    row_names(&ordinary, instance)
        || row_names(&evacuating, instance)
        || row_names(&suspect, instance)
}

fn is_holder(held: Option<Instance>, instance: &Instance) -> bool
    ensures { result ≡ told.is_holder held instance.now }
{
    match held {
        None => false,
        Some(held) => *instance == held,
    }
}

fn row_names(row: &Option<Actual>, instance: &Instance) -> bool
    ensures { result ≡ told.row_names row.now instance.now }
{
    match row {
        None => false,
        Some(row) => is_holder(row.state.holder(), instance),
    }
}

fn task_names(row: &Option<Task>, instance: &Instance) -> bool
    ensures { result ≡ told.task_names row.now instance.now }
{
    match row {
        None => false,
        Some(row) => is_holder(runner_of(&row.state), instance),
    }
}

fn runner_of(state: &TaskState) -> Option<Instance>
    ensures { result ≡ runner_of state.now }
{
    match *state {
        TaskState::Running { instance, .. } => Some(instance),
        TaskState::Pending | TaskState::Completed { .. } | TaskState::Resolving { .. } => None,
    }
}
