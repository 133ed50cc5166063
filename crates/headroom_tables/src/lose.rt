//! What a loss does.
ghost use Rattle.std.specs.Prelude.{◌≡◌, ◌++◌, OnOk};
ghost use Rattle.headroom_tables.specs.Layout.{head};
ghost use Rattle.headroom_tables.specs.LoseTables.{dark_table, lose_counts, lose_text};

use crate::entries::Entry;
use crate::layout::{Heading, add_head, add_row, add_table};
use crate::no_room::add_no_room;
use crate::tags::add_tags;
use crate::zones::add_zones_then;
use diego_names::Name;
use forecast_records::Lost;
use std::alloc::{AllocError, Global};
use text_table::Side;

/// The answer to a loss.
pub(crate) fn add_lose(text: &mut Vec<u8>, alloc: Global, lost: &Lost) -> Result<(), AllocError>
    ensures { OnOk result (text.new.items ≡ text.old.items ++ lose_text lost.now) }
{
    add_counts(text, alloc, lost)?;
    add_tags(text, alloc, lost.tags.items())?;
    add_no_room(text, alloc, lost.without_room.items())?;
    add_all_dark(text, alloc, lost.dark_of_many.items())?;
    add_zones_then(text, alloc, lost.zones.items())
}

fn add_counts(text: &mut Vec<u8>, alloc: Global, lost: &Lost) -> Result<(), AllocError>
    ensures { OnOk result (text.new.items
        ≡ text.old.items ++ head (lose_counts lost.now) lost.now.verdict) }
{
    add_head(
        text,
        alloc,
        &[
            Entry::Text("lose: cells "),
            Entry::Number(lost.cells),
            Entry::Text(", need room "),
            Entry::Number(lost.displaced),
            Entry::Text(", tasks that fail "),
            Entry::Number(lost.tasks),
            Entry::Text(", waited before "),
            Entry::Number(lost.waiting),
            Entry::Text(", dark "),
            Entry::Number(lost.dark),
            Entry::Text(" (of several instances "),
            Entry::Number(lost.dark_of_many.len() as u64),
            Entry::Text(")"),
        ],
        lost.verdict,
    )
}

// Processes of several instances of which none is held.
#[tactic(auto, unfolding(crate::specs::LoseTables::dark_columns))]
fn add_all_dark(text: &mut Vec<u8>, alloc: Global, processes: &[Name]) -> Result<(), AllocError>
    ensures { OnOk result (text.new.items ≡ text.old.items ++ dark_table processes.now) }
{
    let mut rows = Vec::new(alloc);
    for process in processes {
        add_row(&mut rows, alloc, &[Entry::Name(process)])?;
    }
    add_table(text, alloc, &[Heading(Side::Left, "DARK")], rows)
}
