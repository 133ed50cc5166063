//! The answer to a drain, and its steps.
ghost use Rattle.std.specs.Prelude.{◌≡◌, ◌++◌, OnOk};
ghost use Rattle.std.specs.List.{flat_map};
ghost use Rattle.headroom_print.specs.DrainLines.{drain_lines, drained_line, step_line, step_lines};

use crate::line_kinds::amounts::add_zones_then;
use crate::line_kinds::object::add_line;
use crate::line_kinds::unplaced::add_all_unplaced;
use crate::line_kinds::value::{Member, Value};
use crate::words::verdict_word;
use forecast_records::{Drained, Step};
use std::alloc::{AllocError, Global};

/// The answer to a drain, and what is under it.
pub(crate) fn add_drain(
    text: &mut Vec<u8>,
    alloc: Global,
    line: u32,
    drained: &Drained,
) -> Result<(), AllocError>
    ensures { OnOk result (text.new.items ≡ text.old.items ++ drain_lines line drained.now) }
{
    add_drained(text, alloc, line, drained)?;
    add_steps(text, alloc, line, drained.steps.items())?;
    add_zones_then(text, alloc, line, drained.zones.items())
}

// What happens where batches are emptied.
#[tactic(auto, unfolding(crate::specs::DrainLines::drained_line))]
fn add_drained(
    text: &mut Vec<u8>,
    alloc: Global,
    line: u32,
    drained: &Drained,
) -> Result<(), AllocError>
    ensures { OnOk result (text.new.items ≡ text.old.items ++ drained_line line drained.now) }
{
    add_line(
        text,
        alloc,
        &[
            Member("answer", Value::Text("drain")),
            Member("at_a_time", Value::Number(u64::from(drained.at_a_time))),
            Member("bad_steps", Value::Number(drained.bad_steps)),
            Member("cells", Value::Number(drained.cells)),
            Member("empty", Value::Number(drained.empty)),
            Member("line", Value::Number(u64::from(line))),
            Member("most_moves", Value::Number(drained.most_moves)),
            Member("moves", Value::Number(drained.moves)),
            Member("steps", Value::Number(drained.steps.len() as u64)),
            Member("tell", Value::Text("answer")),
            Member("uneven", Value::Number(drained.uneven)),
            Member("uneven_before", Value::Number(drained.uneven_before)),
            Member("verdict", Value::Text(verdict_word(drained.verdict))),
        ],
    )
}

fn add_steps(text: &mut Vec<u8>, alloc: Global, line: u32, steps: &[Step]) -> Result<(), AllocError>
    ensures { OnOk result
        (text.new.items ≡ text.old.items ++ flat_map (step_lines line) steps.now) }
{
    for step in steps {
        add_step(text, alloc, line, step)?;
    }
    Ok(())
}

// A batch that is emptied, and the jobs without room then.
fn add_step(text: &mut Vec<u8>, alloc: Global, line: u32, step: &Step) -> Result<(), AllocError>
    ensures { OnOk result (text.new.items ≡ text.old.items ++ step_lines line step.now) }
{
    add_step_line(text, alloc, line, step)?;
    add_all_unplaced(text, alloc, line, step.without_room.items())
}

// A batch that is emptied.
#[tactic(auto, unfolding(crate::specs::DrainLines::step_line))]
fn add_step_line(
    text: &mut Vec<u8>,
    alloc: Global,
    line: u32,
    step: &Step,
) -> Result<(), AllocError>
    ensures { OnOk result (text.new.items ≡ text.old.items ++ step_line line step.now) }
{
    add_line(
        text,
        alloc,
        &[
            Member("cells", Value::Names(step.cells.items())),
            Member("displaced", Value::Number(step.displaced)),
            Member("free_left", Value::Sums(&step.free_left)),
            Member("line", Value::Number(u64::from(line))),
            Member("step", Value::Number(step.step)),
            Member("tag", Value::NameOrNull(&step.tag)),
            Member("tell", Value::Text("step")),
            Member("unplaced", Value::Number(step.unplaced)),
            Member("verdict", Value::Text(verdict_word(step.verdict))),
            Member("waiting_unplaced", Value::Number(step.waiting_unplaced)),
            Member("zone", Value::Name(&step.zone)),
        ],
    )
}
