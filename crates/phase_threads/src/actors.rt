//! The actors of a phase at a shared board.
ghost use Rattle.std.specs.Prelude.{◌≡◌, ◌+◌, length, IfOk, OnErr};
ghost use Rattle.bbs_shared.specs.Sharings.{AreHanded};
ghost use Rattle.phase_runs.specs.Actors.{CanAllDo};
ghost use Rattle.phase_threads.specs.Sharing.{AreBack, HaveRun, IsUnused, WereCut};

use crate::at_once::act_at_once;
use crate::dealing::deal;
use crate::gathering::{gather, is_any_starved};
use crate::rooms::three_rooms;
use bbs_shared::{BoardPass, SharedBoard};
use byte_ports::Gate;
use crash_backoff::Moment;
use diego_names::{List, OutOfMemory};
use disk_trait::Disk;
use phase_actors::ActorState;
use scenario_lines::{Answered, Line};
use std::alloc::Global;
use std::sync::Wait;
use std::thread::Threads;

/// All actors do their lines, at once. The passes come back whatever happens: that of the round
/// first, and then those of the actors. In `Err` memory ran out, in a call too.
pub(crate) fn run_actors<R: Threads + Wait + Sync, D: Disk + Drop + Send, G: Gate + Sync>(
    rt: &R,
    alloc: Global,
    shared: &SharedBoard<D>,
    gate: &G,
    actors: &mut [ActorState],
    lines: &[Line],
    now: Moment,
    mut passes: Vec<BoardPass<D>>,
) -> (Vec<BoardPass<D>>, Result<List<List<Answered>>, OutOfMemory>)
    requires can { CanAllDo lines.now actors.old }
    requires handed { AreHanded shared.now.desk.table.shared.key.value.start
        shared.now.desk.table.shared.table_id (length actors.old + 1) passes.items }
    ensures back { AreBack shared.now.desk.table.shared.table_id (length actors.old)
        result.0.items }
    ensures round { IsUnused shared.now.desk.table.shared.key.value.start result.0.items }
    ensures ran { IfOk result.1 (λ parts. HaveRun shared.now.desk.table.shared.key.value.start
        now lines.now actors.old actors.new parts result.0.items) }
    ensures cut { OnErr result.1 (WereCut shared.now.desk.table.shared.key.value.start
        now lines.now actors.old result.0.items) }
{
    let (all, mut back, mut parts) = match three_rooms(alloc, actors.len() + 1) {
        Ok(rooms) => rooms,
        Err(want) => return (passes, Err(want)),
    };
    back.push_reserved(passes.remove(0));
    let all = deal(rt, alloc, shared, gate, actors, passes, all);
    let all = act_at_once(rt, alloc, all, lines, now);
    let starved = is_any_starved(&all);
    gather(all, actors, &mut back, &mut parts);
    if starved {
        (back, Err(OutOfMemory))
    } else {
        (back, Ok(List::from(parts)))
    }
}
