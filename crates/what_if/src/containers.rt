//! What a cell told, as a rep would answer.
ghost use Rattle.std.specs.Prelude.{◌≡◌, ◌+◌, ◌<◌, ◌^◌, ◌++◌, ◌∷◌, [], map, length, IfOk, OnOk};
ghost use Rattle.std.specs.List.{All};
ghost use Rattle.dump_reader.specs.Facts.{AllDiffer, IsCellState};
ghost use Rattle.what_if.specs.Sites.{
  answer_of,
  cells_of,
  containers_of,
  instance_container,
  key_of,
  numbered,
  state_of,
  task_container,
};

use cell_records::{Answer, Container, ContainerState, JobName};
use diego_names::{Instance, Key, List, OutOfMemory};
use dump_lines::{CellState, InstanceOnCell, TaskOnCell};
use std::alloc::Global;

/// The instance that is meant.
pub fn key_of(instance: &InstanceOnCell) -> Key
    ensures { result ≡ key_of instance.now }
{
    Key {
        process: instance.process,
        index: instance.index,
    }
}

fn state_of(ended: bool) -> ContainerState
    ensures { result ≡ state_of ended }
{
    if ended {
        ContainerState::Completed { failed: false }
    } else {
        ContainerState::Running
    }
}

fn add_instance(
    list: &mut List<Container>,
    number: u32,
    instance: &InstanceOnCell,
) -> Result<(), OutOfMemory>
    ensures { OnOk result (list.new
        ≡ list.old ++ instance_container number instance.now ∷ []) }
{
    let job = JobName::Lrp(key_of(instance));
    let state = state_of(instance.ended);
    let container = Container {
        instance: Instance { epoch: 0, number },
        job,
        memory: instance.memory,
        disk: instance.disk,
        state,
    };
    list.push(container)?;
    Ok(())
}

// The instances as containers, numbered from 1.
fn instance_containers(
    alloc: Global,
    instances: &[InstanceOnCell],
) -> Result<Vec<Container>, OutOfMemory>
    requires { length instances.now < 2 ^ 32 }
    ensures { IfOk result (λ list. list.items ≡ numbered instance_container 1 instances.now) }
{
    let mut list = List::new(alloc);
    let mut number: u32 = 0;
    for instance in instances {
        number += 1;
        add_instance(&mut list, number, instance)?;
    }
    Ok(Vec::from(list))
}

fn add_task(list: &mut List<Container>, number: u32, task: &TaskOnCell) -> Result<(), OutOfMemory>
    ensures { OnOk result (list.new ≡ list.old ++ task_container number task.now ∷ []) }
{
    let job = JobName::Task(task.task);
    let state = ContainerState::Running;
    let container = Container {
        instance: Instance { epoch: 0, number },
        job,
        memory: task.memory,
        disk: task.disk,
        state,
    };
    list.push(container)?;
    Ok(())
}

// The tasks as containers, numbered behind so many others.
fn task_containers(
    alloc: Global,
    others: u32,
    tasks: &[TaskOnCell],
) -> Result<Vec<Container>, OutOfMemory>
    requires { others + length tasks.now < 2 ^ 32 }
    ensures { IfOk result (λ list. list.items ≡ numbered task_container (others + 1) tasks.now) }
{
    let mut list = List::new(alloc);
    let mut number = others;
    for task in tasks {
        number += 1;
        add_task(&mut list, number, task)?;
    }
    Ok(Vec::from(list))
}

// The instances of a cell, then its tasks.
fn containers_of(alloc: Global, state: &CellState) -> Result<List<Container>, OutOfMemory>
    requires { length state.now.instances + length state.now.tasks < 2 ^ 32 }
    ensures { IfOk result (λ list. list ≡ containers_of state.now) }
{
    let instances = state.instances.items();
    let mut list = instance_containers(alloc, instances)?;
    let mut tasks = task_containers(alloc, instances.len() as u32, state.tasks.items())?;
    list.append(&mut tasks)?;
    Ok(List::from(list))
}

fn answer_of(alloc: Global, state: &CellState) -> Result<Answer, OutOfMemory>
    requires { IsCellState state.now }
    ensures { IfOk result (λ answer. answer ≡ answer_of state.now) }
{
    // A number that was read is known to be in range.
    let _containers = state.totals.containers;
    let containers = containers_of(alloc, state)?;
    let last = state.instances.len() + state.tasks.len();
    Ok(Answer {
        cell: state.place.cell,
        zone: state.place.zone,
        tag: state.tag,
        epoch: 0,
        evacuating: state.evacuating,
        totals: state.totals,
        free: state.free,
        last: last as u32,
        containers,
    })
}

// What each of the cells told, in their order.
fn answers_of(alloc: Global, states: &[CellState]) -> Result<Vec<Answer>, OutOfMemory>
    requires { All IsCellState states.now }
    ensures { IfOk result (λ cells. cells.items ≡ map answer_of states.now) }
{
    let mut cells = Vec::new(alloc);
    for state in states {
        let answer = answer_of(alloc, state)?;
        cells.push(answer)?;
    }
    Ok(cells)
}

// The cells that told their state, by name.
pub(crate) fn cells_of(alloc: Global, states: &[CellState]) -> Result<List<Answer>, OutOfMemory>
    requires each { All IsCellState states.now }
    requires differ { AllDiffer (map (λ s. s.place.cell) states.now) }
    ensures { IfOk result (λ cells. cells ≡ cells_of states.now) }
{
    let mut cells = answers_of(alloc, states)?;
    cells.sort_unstable_by_key(|answer| answer.cell);
    Ok(List::from(cells))
}
