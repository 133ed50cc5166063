//! The answer to more instances of a process, and its cells.
ghost use Rattle.std.specs.Prelude.{◌≡◌, ◌++◌, OnOk};
ghost use Rattle.std.specs.List.{flat_map};
ghost use Rattle.headroom_print.specs.FitLines.{filled_line, fit_lines, fitted_line};

use crate::line_kinds::object::add_line;
use crate::line_kinds::unplaced::add_first;
use crate::line_kinds::value::{Member, Value};
use crate::words::verdict_word;
use forecast_records::{Filled, Fitted};
use std::alloc::{AllocError, Global};

/// The answer to more instances of a process, and what is under it.
pub(crate) fn add_fit(
    text: &mut Vec<u8>,
    alloc: Global,
    line: u32,
    fitted: &Fitted,
) -> Result<(), AllocError>
    ensures { OnOk result (text.new.items ≡ text.old.items ++ fit_lines line fitted.now) }
{
    add_fitted(text, alloc, line, fitted)?;
    add_first(text, alloc, line, &fitted.first)?;
    add_all_filled(text, alloc, line, fitted.filled.items())
}

// Where more instances of a process would go.
#[tactic(auto, unfolding(crate::specs::FitLines::fitted_line))]
fn add_fitted(
    text: &mut Vec<u8>,
    alloc: Global,
    line: u32,
    fitted: &Fitted,
) -> Result<(), AllocError>
    ensures { OnOk result (text.new.items ≡ text.old.items ++ fitted_line line fitted.now) }
{
    add_line(
        text,
        alloc,
        &[
            Member("answer", Value::Text("fit")),
            Member("cells", Value::Number(fitted.filled.len() as u64)),
            Member("instances", Value::Number(u64::from(fitted.instances))),
            Member("line", Value::Number(u64::from(line))),
            Member("placed", Value::Number(fitted.placed)),
            Member("room_for", Value::Number(fitted.room_for)),
            Member("tell", Value::Text("answer")),
            Member("unplaced", Value::Number(fitted.unplaced)),
            Member("verdict", Value::Text(verdict_word(fitted.verdict))),
            Member("zones", Value::Zones(fitted.zones.items())),
        ],
    )
}

fn add_all_filled(
    text: &mut Vec<u8>,
    alloc: Global,
    line: u32,
    cells: &[Filled],
) -> Result<(), AllocError>
    ensures { OnOk result
        (text.new.items ≡ text.old.items ++ flat_map (filled_line line) cells.now) }
{
    for cell in cells {
        add_filled(text, alloc, line, cell)?;
    }
    Ok(())
}

// A cell that takes some of them.
#[tactic(auto, unfolding(crate::specs::FitLines::filled_line))]
fn add_filled(text: &mut Vec<u8>, alloc: Global, line: u32, cell: &Filled) -> Result<(), AllocError>
    ensures { OnOk result (text.new.items ≡ text.old.items ++ filled_line line cell.now) }
{
    add_line(
        text,
        alloc,
        &[
            Member("cell", Value::Name(&cell.cell)),
            Member("free", Value::Free(&cell.free)),
            Member("free_left", Value::Free(&cell.free_left)),
            Member("instances", Value::Number(cell.instances)),
            Member("line", Value::Number(u64::from(line))),
            Member("tell", Value::Text("cell")),
            Member("zone", Value::Name(&cell.zone)),
        ],
    )
}
