//! The lines of tasks, processes and instances.
ghost use Rattle.std.specs.Prelude.{◌≡◌};
ghost use Rattle.serde_json.specs.View.{view};
ghost use Rattle.dump_lines.specs.Rows.{actual_in, actual_of, cell_as, cell_in, demand_in, desired_in, desired_of, row_state_in, row_state_named, task_in, placement_as, placement_in};

use crate::cell::demand_of;
use crate::demand::Demand;
use crate::fault::{LineFault, both};
use crate::members::{
    has, is_filled_in, is_word_in, is_word_or, name_in, number_in, number_or, said, text_in,
};
use crate::rows::{ActualRow, DesiredRow, RowState, TaskRow};
use crate::tags::first_tag_in;
use crate::values::name_of;
use diego_names::{Key, Name};
use serde_json::Value;

#[tactic(auto, unfolding(crate::specs::Rows::demand_in))]
fn demand_in(value: &Value) -> Result<Demand, LineFault>
    ensures { result ≡ demand_in (view value.now) }
{
    demand_of(
        number_or(0, value, "memory_mb"),
        number_or(0, value, "disk_mb"),
        first_tag_in(value),
    )
}

/// What a line of `cfdot tasks` tells.
#[tactic(auto, unfolding(crate::specs::Rows::task_in))]
pub(crate) fn task_in(value: &Value) -> Result<TaskRow, LineFault>
    ensures { result ≡ task_in (view value.now) }
{
    let task = both(
        name_in(value, "task_guid"),
        is_word_in(value, "state", "PENDING"),
    );
    let ((task, waits), demand) = both(task, demand_in(value))?;
    Ok(TaskRow {
        task,
        waits,
        demand,
    })
}

// Whether a placement names volume drivers; `null` names none.
#[tactic(auto, unfolding(crate::specs::Rows::placement_as))]
fn placement_as(value: &Value) -> Result<bool, LineFault>
    ensures { result ≡ placement_as (view value.now) }
{
    match value {
        Value::Null => Ok(false),
        Value::Object(_) => is_filled_in(value, "driver_names"),
        _ => Err(LineFault::BadShape),
    }
}

#[tactic(auto, unfolding(crate::specs::Rows::placement_in))]
fn placement_in(value: &Value) -> Result<bool, LineFault>
    ensures { result ≡ placement_in (view value.now) }
{
    match said(value, "volume_placement") {
        Some(given) => placement_as(given),
        None => Ok(false),
    }
}

// A desired process, by its parts.
#[tactic(auto, unfolding(crate::specs::Rows::desired_of))]
fn desired_of(
    process: Result<Name, LineFault>,
    instances: Result<u32, LineFault>,
    demand: Result<Demand, LineFault>,
    drivers: Result<bool, LineFault>,
    mounts: Result<bool, LineFault>,
) -> Result<DesiredRow, LineFault>
    ensures { result ≡ desired_of process instances demand drivers mounts }
{
    let asks = both(both(process, instances), demand);
    let ((((process, instances), demand), has_volume_drivers), has_volume_mounts) = both(
        both(asks, drivers),
        mounts,
    )?;
    Ok(DesiredRow {
        process,
        instances,
        demand,
        has_volume_drivers,
        has_volume_mounts,
    })
}

/// What a line of a desired process tells.
#[tactic(auto, unfolding(crate::specs::Rows::desired_in))]
pub(crate) fn desired_in(value: &Value) -> Result<DesiredRow, LineFault>
    ensures { result ≡ desired_in (view value.now) }
{
    desired_of(
        name_in(value, "process_guid"),
        number_in(value, "instances"),
        demand_in(value),
        placement_in(value),
        is_filled_in(value, "volume_mounts"),
    )
}

fn row_state_named(text: &str) -> Option<RowState>
    ensures { result ≡ row_state_named text.now }
{
    if text.eq_ignore_ascii_case("UNCLAIMED") {
        Some(RowState::Unclaimed)
    } else if text.eq_ignore_ascii_case("CLAIMED") {
        Some(RowState::Claimed)
    } else if text.eq_ignore_ascii_case("RUNNING") {
        Some(RowState::Running)
    } else if text.eq_ignore_ascii_case("CRASHED") {
        Some(RowState::Crashed)
    } else {
        None
    }
}

#[tactic(auto, unfolding(crate::specs::Rows::row_state_in))]
fn row_state_in(value: &Value) -> Result<RowState, LineFault>
    ensures { result ≡ row_state_in (view value.now) }
{
    match text_in(value, "state") {
        Some(text) => match row_state_named(text) {
            Some(state) => Ok(state),
            None => Err(LineFault::BadShape),
        },
        None => Err(LineFault::BadShape),
    }
}

// The cell that a text names; an empty one names none.
#[tactic(auto, unfolding(crate::specs::Rows::cell_as))]
fn cell_as(text: &str) -> Result<Option<Name>, LineFault>
    ensures { result ≡ cell_as text.now }
{
    if text.is_empty() {
        Ok(None)
    } else {
        Ok(Some(name_of(text)?))
    }
}

#[tactic(auto, unfolding(crate::specs::Rows::cell_in))]
fn cell_in(value: &Value) -> Result<Option<Name>, LineFault>
    ensures { result ≡ cell_in (view value.now) }
{
    if has(value, "cell_id") {
        match text_in(value, "cell_id") {
            Some(text) => cell_as(text),
            None => Err(LineFault::BadShape),
        }
    } else {
        Ok(None)
    }
}

// A row, by its parts.
#[tactic(auto, unfolding(crate::specs::Rows::actual_of))]
fn actual_of(
    process: Result<Name, LineFault>,
    index: Result<u32, LineFault>,
    state: Result<RowState, LineFault>,
    ordinary: Result<bool, LineFault>,
    cell: Result<Option<Name>, LineFault>,
) -> Result<ActualRow, LineFault>
    ensures { result ≡ actual_of process index state ordinary cell }
{
    let stands = both(both(process, index), state);
    let ((((process, index), state), ordinary), cell) = both(both(stands, ordinary), cell)?;
    Ok(ActualRow {
        instance: Key { process, index },
        state,
        ordinary,
        cell,
    })
}

/// What a line of `cfdot actual-lrps` tells.
#[tactic(auto, unfolding(crate::specs::Rows::actual_in))]
pub(crate) fn actual_in(value: &Value) -> Result<ActualRow, LineFault>
    ensures { result ≡ actual_in (view value.now) }
{
    actual_of(
        name_in(value, "process_guid"),
        number_in(value, "index"),
        row_state_in(value),
        is_word_or(true, value, "presence", "ORDINARY"),
        cell_in(value),
    )
}
