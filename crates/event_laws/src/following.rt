//! Rows that follow a board by its events alone.
ghost use Rattle.std.specs.Prelude.{◌≡◌, ◌+◌, ◌<◌, ◌^◌, length, OnOk, OnErr, IfOk};
ghost use Rattle.bbs_model.specs.Step.{with_row, without_place_of};
ghost use Rattle.event_laws.specs.Told.{with_event, after_events, after_all};

use bbs_model::{Change, Event, Events, Row, Rows};
use diego_names::OutOfMemory;
use plain_step::{copy_of, put, take_away};
use std::alloc::Global;

/// Brings rows along by the events of transitions, in their order, and counts each. The events are
/// taken at their word: only those that a board told of its own transitions, from these rows on,
/// give that board's rows. Where memory runs out, the rows stay as they were before all of them.
pub fn follow(alloc: Global, rows: &mut Rows, told: &[Events]) -> Result<(), OutOfMemory>
    requires { rows.old.next + length told.now < 2 ^ 64 }
    ensures ok { OnOk result (rows.new ≡ after_all rows.old told.entry.now) }
    ensures err { OnErr result (rows.new ≡ rows.old) }
{
    let mut new = copy_of(alloc, rows)?;
    for events in told {
        go_on(alloc, &mut new, events)?;
    }
    *rows = new;
    Ok(())
}

/// One transition. Where memory runs out, maybe only the first event was taken in.
fn go_on(alloc: Global, rows: &mut Rows, events: &Events) -> Result<(), OutOfMemory>
    requires { rows.old.next + 1 < 2 ^ 64 }
    ensures { OnOk result (rows.new ≡ after_events rows.old events.entry.now) }
{
    take_in(alloc, rows, &events.first)?;
    if let Some(second) = &events.second {
        take_in(alloc, rows, second)?;
    }
    rows.next += 1;
    Ok(())
}

fn take_in(alloc: Global, rows: &mut Rows, event: &Event) -> Result<(), OutOfMemory>
    ensures { OnOk result (rows.new ≡ with_event event.entry.now rows.old) }
{
    match event.change {
        Change::Created | Change::Changed => put(alloc, rows, &event.row),
        Change::Removed => take_away(alloc, rows, &event.row),
    }
}
