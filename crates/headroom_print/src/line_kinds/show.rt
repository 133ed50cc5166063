//! The answer to what stands and waits.
ghost use Rattle.std.specs.Prelude.{◌≡◌, ◌++◌, OnOk};
ghost use Rattle.headroom_print.specs.ShowLines.{show_lines, shown_line, standing_lines, stock_lines};

use crate::line_kinds::amounts::add_zones_now;
use crate::line_kinds::object::add_line;
use crate::line_kinds::spread::{add_all_uneven, add_in_one_zone, add_on_one_cell};
use crate::line_kinds::tag::add_tags;
use crate::line_kinds::unplaced::add_all_unplaced;
use crate::line_kinds::value::{Member, Value};
use crate::words::verdict_word;
use forecast_records::Shown;
use std::alloc::{AllocError, Global};

/// The answer to what stands and waits, and what is under it.
pub(crate) fn add_show(
    text: &mut Vec<u8>,
    alloc: Global,
    line: u32,
    shown: &Shown,
) -> Result<(), AllocError>
    ensures { OnOk result (text.new.items ≡ text.old.items ++ show_lines line shown.now) }
{
    add_stock(text, alloc, line, shown)?;
    add_standing(text, alloc, line, shown)
}

// The answer, what waits and what zones have.
#[tactic(auto, unfolding(crate::specs::ShowLines::stock_lines))]
fn add_stock(text: &mut Vec<u8>, alloc: Global, line: u32, shown: &Shown) -> Result<(), AllocError>
    ensures { OnOk result (text.new.items ≡ text.old.items ++ stock_lines line shown.now) }
{
    add_shown(text, alloc, line, shown)?;
    add_tags(text, alloc, line, shown.tags.items())?;
    add_all_unplaced(text, alloc, line, shown.unplaced.items())?;
    add_zones_now(text, alloc, line, shown.zones.items())
}

// How processes stand.
#[tactic(auto, unfolding(crate::specs::ShowLines::standing_lines))]
fn add_standing(
    text: &mut Vec<u8>,
    alloc: Global,
    line: u32,
    shown: &Shown,
) -> Result<(), AllocError>
    ensures { OnOk result (text.new.items ≡ text.old.items ++ standing_lines line shown.now) }
{
    add_all_uneven(text, alloc, line, shown.uneven.items())?;
    add_on_one_cell(text, alloc, line, shown.one_cell.items())?;
    add_in_one_zone(text, alloc, line, shown.one_zone.items())
}

// What stands and waits now.
#[tactic(auto, unfolding(crate::specs::ShowLines::shown_line))]
fn add_shown(text: &mut Vec<u8>, alloc: Global, line: u32, shown: &Shown) -> Result<(), AllocError>
    ensures { OnOk result (text.new.items ≡ text.old.items ++ shown_line line shown.now) }
{
    add_line(
        text,
        alloc,
        &[
            Member("answer", Value::Text("show")),
            Member("cells", Value::Number(shown.cells)),
            Member("crashed", Value::Number(shown.crashed)),
            Member("evacuating", Value::Number(shown.evacuating)),
            Member("instances", Value::Number(shown.instances)),
            Member("line", Value::Number(u64::from(line))),
            Member("one_cell", Value::Number(shown.one_cell.len() as u64)),
            Member("one_zone", Value::Number(shown.one_zone.len() as u64)),
            Member("processes", Value::Number(shown.processes)),
            Member("silent", Value::Number(shown.silent)),
            Member("tasks", Value::Number(shown.tasks)),
            Member("tell", Value::Text("answer")),
            Member("uneven", Value::Number(shown.uneven.len() as u64)),
            Member("verdict", Value::Text(verdict_word(shown.verdict))),
            Member("waiting", Value::Number(shown.waiting)),
            Member(
                "waiting_unplaced",
                Value::Number(shown.unplaced.len() as u64),
            ),
        ],
    )
}
