//! The lines of processes that stand unevenly, on one cell or in one zone.
ghost use Rattle.std.specs.Prelude.{◌≡◌, ◌++◌, OnOk};
ghost use Rattle.std.specs.List.{flat_map};
ghost use Rattle.headroom_print.specs.SpreadLines.{one_cell_line, one_zone_line, uneven_line};

use crate::line_kinds::object::add_line;
use crate::line_kinds::value::{Member, Value};
use forecast_records::{InOneZone, OnOneCell, Uneven};
use std::alloc::{AllocError, Global};

/// The processes in their order.
pub(crate) fn add_all_uneven(
    text: &mut Vec<u8>,
    alloc: Global,
    line: u32,
    processes: &[Uneven],
) -> Result<(), AllocError>
    ensures { OnOk result
        (text.new.items ≡ text.old.items ++ flat_map (uneven_line line) processes.now) }
{
    for process in processes {
        add_uneven(text, alloc, line, process)?;
    }
    Ok(())
}

// A process whose zones differ.
#[tactic(auto, unfolding(crate::specs::SpreadLines::uneven_line))]
fn add_uneven(
    text: &mut Vec<u8>,
    alloc: Global,
    line: u32,
    uneven: &Uneven,
) -> Result<(), AllocError>
    ensures { OnOk result (text.new.items ≡ text.old.items ++ uneven_line line uneven.now) }
{
    add_line(
        text,
        alloc,
        &[
            Member("line", Value::Number(u64::from(line))),
            Member("process", Value::Name(&uneven.process)),
            Member("spread", Value::Number(uneven.spread)),
            Member("tell", Value::Text("uneven")),
            Member("zones", Value::Zones(uneven.zones.items())),
        ],
    )
}

/// The processes in their order.
pub(crate) fn add_on_one_cell(
    text: &mut Vec<u8>,
    alloc: Global,
    line: u32,
    processes: &[OnOneCell],
) -> Result<(), AllocError>
    ensures { OnOk result
        (text.new.items ≡ text.old.items ++ flat_map (one_cell_line line) processes.now) }
{
    for process in processes {
        add_one_cell(text, alloc, line, process)?;
    }
    Ok(())
}

// A process that stands on one cell.
#[tactic(auto, unfolding(crate::specs::SpreadLines::one_cell_line))]
fn add_one_cell(
    text: &mut Vec<u8>,
    alloc: Global,
    line: u32,
    process: &OnOneCell,
) -> Result<(), AllocError>
    ensures { OnOk result (text.new.items ≡ text.old.items ++ one_cell_line line process.now) }
{
    add_line(
        text,
        alloc,
        &[
            Member("cell", Value::Name(&process.cell)),
            Member("instances", Value::Number(process.instances)),
            Member("line", Value::Number(u64::from(line))),
            Member("process", Value::Name(&process.process)),
            Member("tell", Value::Text("one_cell")),
            Member("zone", Value::Name(&process.zone)),
        ],
    )
}

/// The processes in their order.
pub(crate) fn add_in_one_zone(
    text: &mut Vec<u8>,
    alloc: Global,
    line: u32,
    processes: &[InOneZone],
) -> Result<(), AllocError>
    ensures { OnOk result
        (text.new.items ≡ text.old.items ++ flat_map (one_zone_line line) processes.now) }
{
    for process in processes {
        add_one_zone(text, alloc, line, process)?;
    }
    Ok(())
}

// A process that stands in one zone.
#[tactic(auto, unfolding(crate::specs::SpreadLines::one_zone_line))]
fn add_one_zone(
    text: &mut Vec<u8>,
    alloc: Global,
    line: u32,
    process: &InOneZone,
) -> Result<(), AllocError>
    ensures { OnOk result (text.new.items ≡ text.old.items ++ one_zone_line line process.now) }
{
    add_line(
        text,
        alloc,
        &[
            Member("instances", Value::Number(process.instances)),
            Member("line", Value::Number(u64::from(line))),
            Member("process", Value::Name(&process.process)),
            Member("tell", Value::Text("one_zone")),
            Member("zone", Value::Name(&process.zone)),
        ],
    )
}
