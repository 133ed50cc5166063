//! The events of a phase.
ghost use Rattle.std.specs.Prelude.{◌≡◌, ◌≤◌, length, IfOk};
ghost use Rattle.scenario_player.specs.Wordings.{events_from};

use bbs_board::Board;
use bbs_model::Event;
use diego_names::OutOfMemory;
use disk_trait::Disk;
use std::alloc::Global;

/// How many items are read at a time.
const PIECE: u32 = 65_536;

/// The events of the items from a place of the log on, in the order of the log. It takes the time and
/// the memory of those.
pub fn events_from<D: Disk>(
    alloc: Global,
    board: &Board<D>,
    from: u64,
) -> Result<Vec<Event>, OutOfMemory>
    requires { from ≤ length board.now.log }
    ensures { IfOk result (λ v. v.items ≡ events_from board.now.base board.now.log from) }
{
    let mut events = Vec::new(alloc);
    let mut at = from;
    while at < board.place() {
        let heard = board.events(alloc, at, PIECE)?;
        events.extend_from_slice(heard.events.items())?;
        at = heard.upto;
    }
    Ok(events)
}
