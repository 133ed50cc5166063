//! The memory that calls need, had before their first device call.
ghost use Rattle.std.specs.Prelude.{◌≡◌, ◌+◌, ◌≤◌, ◌<◌, ◌*◌, ◌^◌, min, true, OnOk, IsOk};
ghost use Rattle.bbs_model.specs.Valid.{IsValid};
ghost use Rattle.bbs_board.specs.Room.{calls_for, most_rows, places_in, places_left, row_count};
ghost use Rattle.bbs_board.specs.Storing.{IsHeadOf};

use crate::draft::{Draft, row_count};
use crate::history::History;
use crate::tracked_index::TrackedIndex;
use diego_names::OutOfMemory;

/// The most rows that a board can have: 5,000 processes, 100,000 actual instances, 50,000 tasks, 1,000 cells
/// and 1,000 domains.
const MOST_ROWS: usize = 157_000;

/// Makes room for `n` more calls: for an item of each, and for the two rows that each may put. More
/// rows than a u32 can say count as want of memory.
fn make_item_room(
    index: &mut TrackedIndex,
    history: &mut History,
    n: u32,
) -> Result<(), OutOfMemory>
    ensures rows { index.new.rows ≡ index.old.rows }
    ensures history { history.new ≡ record history.old { room = history.new.room } }
    ensures room { OnOk result ((2 * n ≤ index.new.spare) × (n ≤ history.new.room) × (n < 2 ^ 31)) }
    ensures succeeds { n < 2 ^ 31 → 2 * n ≤ index.old.spare → n ≤ history.old.room → IsOk result }
    ensures kept { (index.old.spare ≤ index.new.spare) × (history.old.room ≤ history.new.room) }
{
    index.reserve(n)?;
    history.reserve(n as usize)?;
    Ok(())
}

/// How many rows the heads of `n` more calls may have, each of which puts two rows at most.
fn rows_ahead(index: &TrackedIndex, n: u32) -> usize
    requires { IsValid index.now.rows }
    ensures { result ≡ min (row_count index.now.rows + 2 * n) most_rows }
{
    (row_count(index.store()) + 2 * n as usize).min(MOST_ROWS)
}

/// Makes room for `n` more calls, and for the heads that they may write, which have no more rows than a
/// board can have.
pub fn make_room(
    index: &mut TrackedIndex,
    history: &mut History,
    draft: &mut Draft,
    n: u32,
) -> Result<(), OutOfMemory>
    requires valid { IsValid index.old.rows }
    ensures rows { index.new.rows ≡ index.old.rows }
    ensures history { history.new ≡ record history.old { room = history.new.room } }
    ensures room { OnOk result (n ≤ calls_for index.new.spare history.new.room
        (places_left (places_in draft.new) index.new.rows)) }
    ensures kept { (index.old.spare ≤ index.new.spare) × (history.old.room ≤ history.new.room)
        × (places_in draft.old ≤ places_in draft.new) }
{
    make_item_room(index, history, n)?;
    draft.reserve(rows_ahead(index, n))?;
    Ok(())
}

/// Where it is due, has the head of the rows written, with the memory of it.
pub fn prepare_head(index: &TrackedIndex, draft: &mut Draft, due: bool) -> Result<(), OutOfMemory>
    requires valid { IsValid index.now.rows }
    ensures succeeds { 0 < places_left (places_in draft.old) index.entry.now.rows → IsOk result }
    ensures kept { places_in draft.old ≤ places_in draft.new }
    ensures head { OnOk result (due ≡ true → IsHeadOf index.entry.now.rows draft.new.bytes.items) }
{
    if !due {
        return Ok(());
    }
    draft.reserve(row_count(index.store()))?;
    draft.write(index.store());
    Ok(())
}

/// Has the memory of one call at hand, and where a checkpoint is due its head written.
pub fn prepare_call(
    index: &mut TrackedIndex,
    history: &mut History,
    draft: &mut Draft,
    due: bool,
) -> Result<(), OutOfMemory>
    requires valid { IsValid index.old.rows }
    ensures rows { index.new.rows ≡ index.old.rows }
    ensures history { history.new ≡ record history.old { room = history.new.room } }
    ensures room { OnOk result ((2 ≤ index.new.spare) × (1 ≤ history.new.room)) }
    ensures succeeds { 0 < calls_for index.old.spare history.old.room
        (places_left (places_in draft.old) index.old.rows) → IsOk result }
    ensures kept { (index.old.spare ≤ index.new.spare) × (history.old.room ≤ history.new.room)
        × (places_in draft.old ≤ places_in draft.new) }
    ensures head { OnOk result (due ≡ true → IsHeadOf index.old.rows draft.new.bytes.items) }
{
    make_item_room(index, history, 1)?;
    prepare_head(index, draft, due)
}
