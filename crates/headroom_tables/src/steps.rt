//! The steps of a drain.
ghost use Rattle.std.specs.Prelude.{◌≡◌, ◌++◌, OnOk};
ghost use Rattle.std.specs.List.{list_any};
ghost use Rattle.text_table.specs.Texts.{texts_of};
ghost use Rattle.headroom_tables.specs.DrainTables.{is_tighter, step_rows, step_table, tightest_rows, tightest_table};

use crate::each::is_bad;
use crate::entries::Entry;
use crate::layout::{Heading, add_row, add_table};
use forecast_records::Step;
use headroom_print::verdict_word;
use std::alloc::{AllocError, Global};
use text_table::Side;

// A step that finds room is left out.
#[tactic(auto, unfolding(crate::specs::DrainTables::step_row))]
fn add_step(rows: &mut Vec<Vec<String>>, alloc: Global, step: &Step) -> Result<(), AllocError>
    ensures { OnOk result
        (texts_of rows.new.items ≡ texts_of rows.old.items ++ step_rows step.now) }
{
    if !is_bad(step.verdict) {
        return Ok(());
    }
    add_row(
        rows,
        alloc,
        &[
            Entry::Number(step.step),
            Entry::Name(&step.zone),
            Entry::Tag(&step.tag),
            Entry::Number(step.displaced),
            Entry::Number(step.unplaced),
            Entry::Text(verdict_word(step.verdict)),
            Entry::Names(step.cells.items()),
        ],
    )
}

/// The steps without room.
pub(crate) fn add_steps(text: &mut Vec<u8>, alloc: Global, steps: &[Step]) -> Result<(), AllocError>
    ensures { OnOk result (text.new.items ≡ text.old.items ++ step_table steps.now) }
{
    let mut rows = Vec::new(alloc);
    for step in steps {
        add_step(&mut rows, alloc, step)?;
    }
    add_table(
        text,
        alloc,
        &[
            Heading(Side::Right, "STEP"),
            Heading(Side::Left, "ZONE"),
            Heading(Side::Left, "TAG"),
            Heading(Side::Right, "NEED ROOM"),
            Heading(Side::Right, "NO ROOM"),
            Heading(Side::Left, "VERDICT"),
            Heading(Side::Left, "CELLS"),
        ],
        rows,
    )
}

// Whether the other step leaves their tag less memory, or as much and comes before.
fn is_tighter(step: &Step, other: &Step) -> bool
    ensures { result ≡ is_tighter step.now other.now }
{
    step.tag == other.tag
        && (other.free_left.memory < step.free_left.memory
            || (other.free_left.memory == step.free_left.memory && other.step < step.step))
}

fn is_any_tighter(step: &Step, steps: &[Step]) -> bool
    ensures { result ≡ list_any (is_tighter step.now) steps.now }
{
    steps.iter().any(|other| is_tighter(step, other))
}

// The step's row, if none is tighter.
#[tactic(auto, unfolding(crate::specs::DrainTables::tightest_row))]
fn add_tightest(
    rows: &mut Vec<Vec<String>>,
    alloc: Global,
    steps: &[Step],
    step: &Step,
) -> Result<(), AllocError>
    ensures { OnOk result (texts_of rows.new.items
        ≡ texts_of rows.old.items ++ tightest_rows steps.now step.now) }
{
    if is_any_tighter(step, steps) {
        return Ok(());
    }
    add_row(
        rows,
        alloc,
        &[
            Entry::Number(step.step),
            Entry::Tag(&step.tag),
            Entry::Amount(step.free_left.memory),
            Entry::Amount(step.free_left.disk),
            Entry::Names(step.cells.items()),
        ],
    )
}

/// Of each tag the step that leaves it the least memory.
pub(crate) fn add_all_tightest(
    text: &mut Vec<u8>,
    alloc: Global,
    steps: &[Step],
) -> Result<(), AllocError>
    ensures { OnOk result (text.new.items ≡ text.old.items ++ tightest_table steps.now) }
{
    let mut rows = Vec::new(alloc);
    for step in steps {
        add_tightest(&mut rows, alloc, steps, step)?;
    }
    add_table(
        text,
        alloc,
        &[
            Heading(Side::Right, "TIGHTEST STEP"),
            Heading(Side::Left, "TAG"),
            Heading(Side::Right, "MEMORY LEFT"),
            Heading(Side::Right, "DISK LEFT"),
            Heading(Side::Left, "CELLS"),
        ],
        rows,
    )
}
