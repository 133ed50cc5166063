ghost use Rattle.std.specs.Prelude.{◌≡◌, OnOk};
ghost use Rattle.task_records.specs.States.{task_state_name};
ghost use Rattle.record_print.specs.PrintedRows.{failed_of, task_data};
ghost use Rattle.record_print.specs.Words.{state_word};
ghost use Rattle.line_writing.specs.Writing.{AddsValue};

use crate::word::state_word;
use json::Writer;
use line_writing::{
    begin, end, put_number, put_optional_instance, put_optional_name, put_optional_truth, put_text,
};
use std::alloc::{AllocError, Global};
use task_records::{Task, TaskState};

pub fn put_task(line: &mut Writer, alloc: Global, row: &Task) -> Result<(), AllocError>
    ensures { OnOk result (AddsValue line.old line.new (task_data row.now)) }
{
    begin(line)?;
    put_number(line, "birth", row.birth)?;
    put_optional_name(line, "cell", &row.state.cell())?;
    put_number(line, "disk", row.disk as u64)?;
    put_optional_truth(line, "failed", failed_of(&row.state))?;
    put_optional_instance(line, alloc, "instance", &row.state.runner())?;
    put_number(line, "memory", row.memory as u64)?;
    put_text(line, "name", row.name.as_str())?;
    put_number(line, "since", row.since.0 as u64)?;
    put_text(line, "state", word_of(&row.state))?;
    put_optional_name(line, "tag", &row.tag)?;
    end(line)
}

// Only a task that has its outcome has failed or not.
fn failed_of(state: &TaskState) -> Option<bool>
    ensures { result ≡ failed_of state.now }
{
    match state {
        TaskState::Pending | TaskState::Running { .. } => None,
        TaskState::Completed { failed } | TaskState::Resolving { failed } => Some(*failed),
    }
}

fn word_of(state: &TaskState) -> &'static str
    ensures { result.now ≡ state_word (task_state_name state.now) }
{
    state_word(state.name())
}
