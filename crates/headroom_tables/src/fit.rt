//! Where more instances of a process would go.
ghost use Rattle.std.specs.Prelude.{◌≡◌, [], ◌∷◌, ◌++◌, OnOk};
ghost use Rattle.text_table.specs.Texts.{texts_of};
ghost use Rattle.headroom_tables.specs.FitTables.{filled_row, filled_table, fit_counts, fit_text};
ghost use Rattle.headroom_tables.specs.Layout.{head};

use crate::entries::Entry;
use crate::layout::{Heading, add_head, add_row, add_table};
use crate::no_room::add_no_room;
use crate::turns::first_jobs;
use forecast_records::{Filled, Fitted};
use std::alloc::{AllocError, Global};
use text_table::Side;

/// The answer to more instances of a process.
pub(crate) fn add_fit(text: &mut Vec<u8>, alloc: Global, fitted: &Fitted) -> Result<(), AllocError>
    ensures { OnOk result (text.new.items ≡ text.old.items ++ fit_text fitted.now) }
{
    add_counts(text, alloc, fitted)?;
    add_no_room(text, alloc, first_jobs(&fitted.first))?;
    add_all_filled(text, alloc, fitted.filled.items())
}

fn add_counts(text: &mut Vec<u8>, alloc: Global, fitted: &Fitted) -> Result<(), AllocError>
    ensures { OnOk result (text.new.items
        ≡ text.old.items ++ head (fit_counts fitted.now) fitted.now.verdict) }
{
    add_head(
        text,
        alloc,
        &[
            Entry::Text("fit: asked "),
            Entry::Number(u64::from(fitted.instances)),
            Entry::Text(", placed "),
            Entry::Number(fitted.placed),
            Entry::Text(", on cells "),
            Entry::Number(fitted.filled.len() as u64),
            Entry::ZonesInBrackets(fitted.zones.items()),
            Entry::Text(", room for "),
            Entry::Number(fitted.room_for),
            Entry::Text(" of this size"),
        ],
        fitted.verdict,
    )
}

#[tactic(auto, unfolding(crate::specs::FitTables::filled_row))]
fn add_filled(rows: &mut Vec<Vec<String>>, alloc: Global, cell: &Filled) -> Result<(), AllocError>
    ensures { OnOk result
        (texts_of rows.new.items ≡ texts_of rows.old.items ++ filled_row cell.now ∷ []) }
{
    add_row(
        rows,
        alloc,
        &[
            Entry::Name(&cell.cell),
            Entry::Name(&cell.zone),
            Entry::Number(cell.instances),
            Entry::Amount(u64::from(cell.free.memory)),
            Entry::Amount(u64::from(cell.free_left.memory)),
            Entry::Amount(u64::from(cell.free.disk)),
            Entry::Amount(u64::from(cell.free_left.disk)),
        ],
    )
}

// The cells that take some of them.
fn add_all_filled(text: &mut Vec<u8>, alloc: Global, cells: &[Filled]) -> Result<(), AllocError>
    ensures { OnOk result (text.new.items ≡ text.old.items ++ filled_table cells.now) }
{
    let mut rows = Vec::new(alloc);
    for cell in cells {
        add_filled(&mut rows, alloc, cell)?;
    }
    add_table(
        text,
        alloc,
        &[
            Heading(Side::Left, "CELL"),
            Heading(Side::Left, "ZONE"),
            Heading(Side::Right, "INSTANCES"),
            Heading(Side::Right, "MEMORY FREE"),
            Heading(Side::Right, "THEN"),
            Heading(Side::Right, "DISK FREE"),
            Heading(Side::Right, "THEN"),
        ],
        rows,
    )
}
