//! What happens where batches of cells are emptied.
ghost use Rattle.std.specs.Prelude.{◌≡◌, ◌++◌, OnOk};
ghost use Rattle.headroom_tables.specs.DrainTables.{all_without_room, drain_counts, drain_text};
ghost use Rattle.headroom_tables.specs.Layout.{head};
ghost use Rattle.headroom_tables.specs.NoRoom.{no_room_table};

use crate::entries::Entry;
use crate::layout::add_head;
use crate::no_room::add_no_room;
use crate::steps::{add_all_tightest, add_steps};
use crate::zones::add_zones_then;
use forecast_records::{Drained, Step};
use std::alloc::{AllocError, Global};

/// The answer to a drain.
pub(crate) fn add_drain(
    text: &mut Vec<u8>,
    alloc: Global,
    drained: &Drained,
) -> Result<(), AllocError>
    ensures { OnOk result (text.new.items ≡ text.old.items ++ drain_text drained.now) }
{
    add_counts(text, alloc, drained)?;
    add_steps(text, alloc, drained.steps.items())?;
    add_all_tightest(text, alloc, drained.steps.items())?;
    add_without_room(text, alloc, drained.steps.items())?;
    add_zones_then(text, alloc, drained.zones.items())
}

fn add_counts(text: &mut Vec<u8>, alloc: Global, drained: &Drained) -> Result<(), AllocError>
    ensures { OnOk result (text.new.items
        ≡ text.old.items ++ head (drain_counts drained.now) drained.now.verdict) }
{
    add_head(
        text,
        alloc,
        &[
            Entry::Text("drain: cells "),
            Entry::Number(drained.cells),
            Entry::Text(", at a time "),
            Entry::Number(u64::from(drained.at_a_time)),
            Entry::Text(", steps "),
            Entry::Number(drained.steps.len() as u64),
            Entry::Text(", without room "),
            Entry::Number(drained.bad_steps),
            Entry::Text(", moves "),
            Entry::Number(drained.moves),
            Entry::Text(", of one instance "),
            Entry::Number(drained.most_moves),
            Entry::Text(" at most"),
            Entry::Text("\nat the end: empty cells "),
            Entry::Number(drained.empty),
            Entry::Text(", uneven processes "),
            Entry::Number(drained.uneven),
            Entry::Text(" (before "),
            Entry::Number(drained.uneven_before),
            Entry::Text(")"),
        ],
        drained.verdict,
    )
}

// The jobs without room of all steps.
fn add_without_room(text: &mut Vec<u8>, alloc: Global, steps: &[Step]) -> Result<(), AllocError>
    ensures { OnOk result
        (text.new.items ≡ text.old.items ++ no_room_table (all_without_room steps.now)) }
{
    let mut jobs = Vec::new(alloc);
    for step in steps {
        jobs.extend_from_slice(step.without_room.items())?;
    }
    add_no_room(text, alloc, &jobs)
}
