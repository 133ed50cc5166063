//! What stands and waits now.
ghost use Rattle.std.specs.Prelude.{◌≡◌, [], ◌∷◌, ◌++◌, map, OnOk};
ghost use Rattle.text_table.specs.Texts.{texts_of};
ghost use Rattle.headroom_tables.specs.Layout.{head};
ghost use Rattle.headroom_tables.specs.ShowTables.{one_cell_row, one_zone_row, show_counts, show_text, standing_tables, together_row, together_table, uneven_row, uneven_table};

use crate::entries::Entry;
use crate::layout::{Heading, add_head, add_row, add_table};
use crate::no_room::add_no_room;
use crate::tags::add_tags;
use crate::zones::add_zones_now;
use diego_names::Name;
use forecast_records::{InOneZone, OnOneCell, Shown, Uneven};
use std::alloc::{AllocError, Global};
use text_table::Side;

/// The answer to what stands and waits.
pub(crate) fn add_show(text: &mut Vec<u8>, alloc: Global, shown: &Shown) -> Result<(), AllocError>
    ensures { OnOk result (text.new.items ≡ text.old.items ++ show_text shown.now) }
{
    add_counts(text, alloc, shown)?;
    add_tags(text, alloc, shown.tags.items())?;
    add_no_room(text, alloc, shown.unplaced.items())?;
    add_standing(text, alloc, shown)?;
    add_zones_now(text, alloc, shown.zones.items())
}

fn add_counts(text: &mut Vec<u8>, alloc: Global, shown: &Shown) -> Result<(), AllocError>
    ensures { OnOk result (text.new.items
        ≡ text.old.items ++ head (show_counts shown.now) shown.now.verdict) }
{
    add_head(
        text,
        alloc,
        &[
            Entry::Text("show: cells "),
            Entry::Number(shown.cells),
            Entry::Text(" (emptied "),
            Entry::Number(shown.evacuating),
            Entry::Text(", silent "),
            Entry::Number(shown.silent),
            Entry::Text("), instances "),
            Entry::Number(shown.instances),
            Entry::Text(" of "),
            Entry::Number(shown.processes),
            Entry::Text(" processes, tasks "),
            Entry::Number(shown.tasks),
            Entry::Text(", waiting "),
            Entry::Number(shown.waiting),
            Entry::Text(", crashed "),
            Entry::Number(shown.crashed),
            Entry::Text("\nuneven processes "),
            Entry::Number(shown.uneven.len() as u64),
            Entry::Text(", in one zone "),
            Entry::Number(shown.one_zone.len() as u64),
            Entry::Text(", on one cell "),
            Entry::Number(shown.one_cell.len() as u64),
        ],
        shown.verdict,
    )
}

// How processes stand.
#[tactic(auto, unfolding(crate::specs::ShowTables::standing_tables))]
fn add_standing(text: &mut Vec<u8>, alloc: Global, shown: &Shown) -> Result<(), AllocError>
    ensures { OnOk result (text.new.items ≡ text.old.items ++ standing_tables shown.now) }
{
    add_together(text, alloc, shown.one_cell.items(), shown.one_zone.items())?;
    add_all_uneven(text, alloc, shown.uneven.items())
}

// A process, its instances, and what they all stand on.
#[tactic(auto, unfolding(crate::specs::ShowTables::together_row))]
fn add_together_row<'a>(
    rows: &mut Vec<Vec<String>>,
    alloc: Global,
    process: &'a Name,
    instances: u64,
    on: &'a Name,
) -> Result<(), AllocError>
    ensures { OnOk result (texts_of rows.new.items
        ≡ texts_of rows.old.items ++ together_row process.now instances on.now ∷ []) }
{
    add_row(
        rows,
        alloc,
        &[
            Entry::Name(process),
            Entry::Number(instances),
            Entry::Name(on),
        ],
    )
}

fn add_on_one_cell(
    rows: &mut Vec<Vec<String>>,
    alloc: Global,
    processes: &[OnOneCell],
) -> Result<(), AllocError>
    ensures { OnOk result
        (texts_of rows.new.items ≡ texts_of rows.old.items ++ map one_cell_row processes.now) }
{
    for process in processes {
        add_together_row(
            rows,
            alloc,
            &process.process,
            process.instances,
            &process.cell,
        )?;
    }
    Ok(())
}

fn add_in_one_zone(
    rows: &mut Vec<Vec<String>>,
    alloc: Global,
    processes: &[InOneZone],
) -> Result<(), AllocError>
    ensures { OnOk result
        (texts_of rows.new.items ≡ texts_of rows.old.items ++ map one_zone_row processes.now) }
{
    for process in processes {
        add_together_row(
            rows,
            alloc,
            &process.process,
            process.instances,
            &process.zone,
        )?;
    }
    Ok(())
}

// Processes of several instances that stand together.
#[tactic(auto, unfolding(crate::specs::ShowTables::together_columns))]
fn add_together(
    text: &mut Vec<u8>,
    alloc: Global,
    cells: &[OnOneCell],
    zones: &[InOneZone],
) -> Result<(), AllocError>
    ensures { OnOk result
        (text.new.items ≡ text.old.items ++ together_table cells.now zones.now) }
{
    let mut rows = Vec::new(alloc);
    add_on_one_cell(&mut rows, alloc, cells)?;
    add_in_one_zone(&mut rows, alloc, zones)?;
    add_table(
        text,
        alloc,
        &[
            Heading(Side::Left, "ONE CELL OR ZONE"),
            Heading(Side::Right, "INSTANCES"),
            Heading(Side::Left, "ON"),
        ],
        rows,
    )
}

#[tactic(auto, unfolding(crate::specs::ShowTables::uneven_row))]
fn add_uneven(
    rows: &mut Vec<Vec<String>>,
    alloc: Global,
    process: &Uneven,
) -> Result<(), AllocError>
    ensures { OnOk result
        (texts_of rows.new.items ≡ texts_of rows.old.items ++ uneven_row process.now ∷ []) }
{
    add_row(
        rows,
        alloc,
        &[
            Entry::Name(&process.process),
            Entry::Number(process.spread),
            Entry::Zones(process.zones.items()),
        ],
    )
}

// Processes whose zones differ.
#[tactic(auto, unfolding(crate::specs::ShowTables::uneven_columns))]
fn add_all_uneven(text: &mut Vec<u8>, alloc: Global, processes: &[Uneven]) -> Result<(), AllocError>
    ensures { OnOk result (text.new.items ≡ text.old.items ++ uneven_table processes.now) }
{
    let mut rows = Vec::new(alloc);
    for process in processes {
        add_uneven(&mut rows, alloc, process)?;
    }
    add_table(
        text,
        alloc,
        &[
            Heading(Side::Left, "UNEVEN"),
            Heading(Side::Right, "BY"),
            Heading(Side::Left, "ZONES"),
        ],
        rows,
    )
}
