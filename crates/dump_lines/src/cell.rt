//! What a cell tells of itself.
ghost use Rattle.std.specs.Prelude.{◌≡◌, ◌+◌, [], IfOk, codes, map, nat_le};
ghost use Rattle.serde_json.specs.View.{view};
ghost use Rattle.dump_lines.specs.Cells.{amounts_as, amounts_in, as_sound, cell_head_in, cell_head_of, cell_state_in, demand_of, has_sound_amounts, instance_as, instance_of, place_in, state_with, task_as, task_name_in};
ghost use Rattle.dump_lines.specs.Faults.{Gives, unless, with_fault};
ghost use Rattle.dump_lines.specs.Listing.{all_from, all_in, with_next};

use crate::cell_state::{CellState, InstanceOnCell, Place, TaskOnCell};
use crate::demand::Demand;
use crate::fault::{LineError, LineFault, both};
use crate::listing::list_in;
use crate::members::{
    has, is_filled_in, is_word_or, name_in, number_in, number_or, said, truth_in,
};
use crate::tags::tag_in;
use cell_records::Amounts;
use diego_names::{List, Name, OutOfMemory};
use serde_json::Value;
use std::alloc::Global;

/// A cell and its zone, whose member has two spellings.
#[tactic(auto, unfolding(crate::specs::Cells::place_in))]
pub(crate) fn place_in(value: &Value, zone: &str) -> Result<Place, LineFault>
    ensures { result ≡ place_in zone.now (view value.now) }
{
    let (cell, zone) = both(name_in(value, "cell_id"), name_in(value, zone))?;
    Ok(Place { cell, zone })
}

/// What is asked for, by its parts.
#[tactic(auto, unfolding(crate::specs::Cells::demand_of))]
pub(crate) fn demand_of(
    memory: Result<u32, LineFault>,
    disk: Result<u32, LineFault>,
    tag: Result<Option<Name>, LineFault>,
) -> Result<Demand, LineFault>
    ensures { result ≡ demand_of memory disk tag }
{
    let ((memory, disk), tag) = both(both(memory, disk), tag)?;
    Ok(Demand { memory, disk, tag })
}

#[tactic(auto, unfolding(crate::specs::Cells::amounts_as))]
fn amounts_as(value: &Value) -> Result<Amounts, LineFault>
    ensures { result ≡ amounts_as (view value.now) }
{
    let size = both(number_in(value, "MemoryMB"), number_in(value, "DiskMB"));
    let ((memory, disk), containers) = both(size, number_in(value, "Containers"))?;
    Ok(Amounts {
        memory,
        disk,
        containers,
    })
}

#[tactic(auto, unfolding(crate::specs::Cells::amounts_in))]
fn amounts_in(value: &Value, member: &str) -> Result<Amounts, LineFault>
    ensures { result ≡ amounts_in member.now (view value.now) }
{
    match said(value, member) {
        Some(given) => amounts_as(given),
        None => Err(LineFault::BadShape),
    }
}

// An instance, by its parts.
#[tactic(auto, unfolding(crate::specs::Cells::instance_of))]
fn instance_of(
    process: Result<Name, LineFault>,
    index: Result<u32, LineFault>,
    memory: Result<u32, LineFault>,
    disk: Result<u32, LineFault>,
    tag: Result<Option<Name>, LineFault>,
    ended: Result<bool, LineFault>,
    volumes: Result<bool, LineFault>,
) -> Result<InstanceOnCell, LineFault>
    ensures { result ≡ instance_of process index memory disk tag ended volumes }
{
    let size = both(both(both(process, index), memory), disk);
    let asks = both(size, tag);
    let ((((((process, index), memory), disk), tag), ended), has_volume_drivers) = both(
        both(asks, ended),
        volumes,
    )?;
    Ok(InstanceOnCell {
        process,
        index,
        memory,
        disk,
        tag,
        ended,
        has_volume_drivers,
    })
}

#[tactic(auto, unfolding(crate::specs::Cells::instance_as))]
fn instance_as(value: &Value) -> Result<InstanceOnCell, LineFault>
    ensures { result ≡ instance_as (view value.now) }
{
    instance_of(
        name_in(value, "process_guid"),
        number_in(value, "index"),
        number_in(value, "MemoryMB"),
        number_in(value, "DiskMB"),
        tag_in(value, "PlacementTags"),
        is_word_or(false, value, "state", "COMPLETED"),
        is_filled_in(value, "VolumeDrivers"),
    )
}

// What was read so far, or the first fault, and one instance more. The two names have variables of their own,
// since without them the prover makes no plan for the row.
fn add_instance(
    fault: Option<LineFault>,
    next: Result<InstanceOnCell, LineFault>,
    rows: &mut List<InstanceOnCell>,
) -> Result<Option<LineFault>, OutOfMemory>
    ensures { IfOk result (λ now. unless now rows.new ≡ with_next (unless fault rows.old) next) }
{
    match fault {
        None => match next {
            Ok(row) => {
                let process: Name = row.process;
                let tag: Option<Name> = row.tag;
                rows.push(InstanceOnCell {
                    process,
                    tag,
                    ..row
                })?;
                Ok(None)
            }
            Err(found) => Ok(Some(found)),
        },
        Some(first) => match next {
            Ok(_) => Ok(Some(first)),
            Err(found) => Ok(Some(first.or_before(found))),
        },
    }
}

fn add_instances(
    items: &[Value],
    rows: &mut List<InstanceOnCell>,
) -> Result<Option<LineFault>, OutOfMemory>
    ensures { IfOk result (λ fault. unless fault rows.new
        ≡ all_from instance_as (Ok rows.old) (map view items.now)) }
{
    let mut fault = None;
    for item in items {
        fault = add_instance(fault, instance_as(item), rows)?;
    }
    Ok(fault)
}

// Reads the instances to where there are none yet, and returns the first fault.
#[tactic(auto, unfolding(crate::specs::Listing::all_in))]
fn instances_in(
    value: &Value,
    rows: &mut List<InstanceOnCell>,
) -> Result<Option<LineFault>, OutOfMemory>
    requires { rows.old ≡ [] }
    ensures { IfOk result (λ fault. unless fault rows.new
        ≡ all_in instance_as (codes "LRPs") (view value.now)) }
{
    match list_in(value, "LRPs") {
        Some(items) => add_instances(items, rows),
        None => Ok(Some(LineFault::BadShape)),
    }
}

// The name of a task, whose member has two spellings.
#[tactic(auto, unfolding(crate::specs::Cells::task_name_in))]
fn task_name_in(value: &Value) -> Result<Name, LineFault>
    ensures { result ≡ task_name_in (view value.now) }
{
    if has(value, "TaskGuid") {
        name_in(value, "TaskGuid")
    } else {
        name_in(value, "task_guid")
    }
}

#[tactic(auto, unfolding(crate::specs::Cells::task_as))]
fn task_as(value: &Value) -> Result<TaskOnCell, LineFault>
    ensures { result ≡ task_as (view value.now) }
{
    let size = both(number_in(value, "MemoryMB"), number_in(value, "DiskMB"));
    let (task, (memory, disk)) = both(task_name_in(value), size)?;
    Ok(TaskOnCell { task, memory, disk })
}

// What was read so far, or the first fault, and one task more.
fn add_task(
    fault: Option<LineFault>,
    next: Result<TaskOnCell, LineFault>,
    rows: &mut List<TaskOnCell>,
) -> Result<Option<LineFault>, OutOfMemory>
    ensures { IfOk result (λ now. unless now rows.new ≡ with_next (unless fault rows.old) next) }
{
    match fault {
        None => match next {
            Ok(row) => {
                rows.push(row)?;
                Ok(None)
            }
            Err(found) => Ok(Some(found)),
        },
        Some(first) => match next {
            Ok(_) => Ok(Some(first)),
            Err(found) => Ok(Some(first.or_before(found))),
        },
    }
}

fn add_tasks(items: &[Value], rows: &mut List<TaskOnCell>) -> Result<Option<LineFault>, OutOfMemory>
    ensures { IfOk result (λ fault. unless fault rows.new
        ≡ all_from task_as (Ok rows.old) (map view items.now)) }
{
    let mut fault = None;
    for item in items {
        fault = add_task(fault, task_as(item), rows)?;
    }
    Ok(fault)
}

// Reads the tasks to where there are none yet, and returns the first fault.
#[tactic(auto, unfolding(crate::specs::Listing::all_in))]
fn tasks_in(value: &Value, rows: &mut List<TaskOnCell>) -> Result<Option<LineFault>, OutOfMemory>
    requires { rows.old ≡ [] }
    ensures { IfOk result (λ fault. unless fault rows.new
        ≡ all_in task_as (codes "Tasks") (view value.now)) }
{
    match list_in(value, "Tasks") {
        Some(items) => add_tasks(items, rows),
        None => Ok(Some(LineFault::BadShape)),
    }
}

fn are_within(some: usize, more: usize, most: usize) -> bool
    ensures { result ≡ nat_le (some + more) most }
{
    some <= most && more <= most - some
}

fn has_sound_amounts(state: &CellState) -> bool
    ensures { result ≡ has_sound_amounts state.now }
{
    state.free.memory <= state.totals.memory
        && state.free.disk <= state.totals.disk
        && state.free.containers <= state.totals.containers
        && are_within(
            state.instances.len(),
            state.tasks.len(),
            state.totals.containers as usize,
        )
}

fn as_sound(state: CellState) -> Result<CellState, LineFault>
    ensures { result ≡ as_sound state }
{
    if has_sound_amounts(&state) {
        Ok(state)
    } else {
        Err(LineFault::BadAmounts)
    }
}

/// What a cell tells of itself beside what stands on it.
#[derive(Clone, Copy)]
pub struct CellHead {
    pub place: Place,
    pub totals: Amounts,
    pub free: Amounts,
    pub tag: Option<Name>,
    pub has_optional_tags: bool,
    pub evacuating: bool,
    pub proxy_memory: u32,
}

// A head, by its parts.
#[tactic(auto, unfolding(crate::specs::Cells::cell_head_of))]
fn cell_head_of(
    place: Result<Place, LineFault>,
    totals: Result<Amounts, LineFault>,
    free: Result<Amounts, LineFault>,
    tag: Result<Option<Name>, LineFault>,
    optional: Result<bool, LineFault>,
    evacuating: Result<bool, LineFault>,
    proxy: Result<u32, LineFault>,
) -> Result<CellHead, LineFault>
    ensures { result ≡ cell_head_of place totals free tag optional evacuating proxy }
{
    let amounts = both(both(place, totals), free);
    let tags = both(both(amounts, tag), optional);
    let ((((((place, totals), free), tag), has_optional_tags), evacuating), proxy_memory) = both(
        both(tags, evacuating),
        proxy,
    )?;
    Ok(CellHead {
        place,
        totals,
        free,
        tag,
        has_optional_tags,
        evacuating,
        proxy_memory,
    })
}

#[tactic(auto, unfolding(crate::specs::Cells::cell_head_in))]
fn cell_head_in(value: &Value) -> Result<CellHead, LineFault>
    ensures { result ≡ cell_head_in (view value.now) }
{
    cell_head_of(
        place_in(value, "Zone"),
        amounts_in(value, "TotalResources"),
        amounts_in(value, "AvailableResources"),
        tag_in(value, "PlacementTags"),
        is_filled_in(value, "OptionalPlacementTags"),
        truth_in(value, "Evacuating"),
        number_or(0, value, "ProxyMemoryAllocationMB"),
    )
}

fn with_fault(
    head: Result<CellHead, LineFault>,
    fault: Option<LineFault>,
) -> Result<CellHead, LineFault>
    ensures { result ≡ with_fault head fault }
{
    match head {
        Ok(head) => match fault {
            None => Ok(head),
            Some(fault) => Err(fault),
        },
        Err(first) => match fault {
            None => Err(first),
            Some(second) => Err(first.or_before(second)),
        },
    }
}

#[tactic(auto, using(crate::proofs::Faults::state_with_faults))]
fn cell_state_of(
    head: Result<CellHead, LineFault>,
    of_instances: Option<LineFault>,
    instances: List<InstanceOnCell>,
    of_tasks: Option<LineFault>,
    tasks: List<TaskOnCell>,
) -> Result<CellState, LineFault>
    ensures { result ≡ state_with head (unless of_instances instances) (unless of_tasks tasks) }
{
    let head = with_fault(with_fault(head, of_instances), of_tasks)?;
    as_sound(CellState {
        place: head.place,
        totals: head.totals,
        free: head.free,
        tag: head.tag,
        has_optional_tags: head.has_optional_tags,
        evacuating: head.evacuating,
        proxy_memory: head.proxy_memory,
        instances,
        tasks,
    })
}

/// What a line of `cfdot cell-states` tells.
#[tactic(auto, unfolding(crate::specs::Cells::cell_state_in))]
pub(crate) fn cell_state_in(alloc: Global, value: &Value) -> Result<CellState, LineError>
    ensures { Gives result (cell_state_in (view value.now)) }
{
    let mut instances = List::new(alloc);
    let of_instances = instances_in(value, &mut instances)?;
    let mut tasks = List::new(alloc);
    let of_tasks = tasks_in(value, &mut tasks)?;
    let head = cell_head_in(value);
    Ok(cell_state_of(head, of_instances, instances, of_tasks, tasks)?)
}
