//! The actors of a phase at a shared board, and its round beside them.
ghost use Rattle.std.specs.Prelude.{◌≡◌, ◌+◌, length, false, Ok, IfOk, OnErr};
ghost use Rattle.bbs_shared.specs.Sharings.{AreHanded};
ghost use Rattle.phase_runs.specs.Actors.{CanAllDo};
ghost use Rattle.phase_threads.specs.Holding.{WasBegun, WasHeld};
ghost use Rattle.phase_threads.specs.Sharing.{AreBack, HaveRun, WereCut};

use crate::beside::act_beside_round;
use crate::dealing::{deal, way_by};
use crate::gathering::{gather, is_any_starved};
use crate::holding::Held;
use crate::rooms::three_rooms;
use bbs_shared::{BoardPass, SharedBoard};
use byte_ports::Gate;
use cell_rep::CellRep;
use convergence::Report;
use crash_backoff::Moment;
use diego_names::{List, OutOfMemory};
use disk_trait::Disk;
use phase_actors::{ActorState, GatedPort};
use phase_runs::Ran;
use scenario_lines::{Answered, Line, RoundLine};
use std::alloc::Global;
use std::sync::Wait;
use std::thread::Threads;

/// What comes back of the actors of a phase and of its round.
pub(crate) struct Together<P> {
    /// All passes: that of the round first, and then those of the actors.
    pub passes: Vec<P>,
    /// The reps of the cells, as the round left them.
    pub cells: Vec<CellRep>,
    /// In `Err` memory ran out, in a call too.
    pub end: Result<Ran, OutOfMemory>,
}

// What came of the phase: it is whole if neither an actor nor the round wanted memory.
fn ended(
    starved: bool,
    parts: List<List<Answered>>,
    round: Result<Option<Report>, OutOfMemory>,
) -> Result<Ran, OutOfMemory>
    ensures { IfOk result (λ ran. (starved ≡ false) × (ran.parts ≡ parts)
        × (round ≡ Ok ran.report)) }
{
    if starved {
        return Err(OutOfMemory);
    }
    match round {
        Ok(report) => Ok(Ran { parts, report }),
        Err(want) => Err(want),
    }
}

/// As `run_actors`, and the round over these reps beside them, by the first of the passes.
pub(crate) fn run_with_round<R: Threads + Wait + Sync, D: Disk + Drop + Send, G: Gate + Sync>(
    rt: &R,
    alloc: Global,
    shared: &SharedBoard<D>,
    gate: &G,
    actors: &mut [ActorState],
    cells: Vec<CellRep>,
    lines: &[Line],
    line: &RoundLine,
    now: Moment,
    mut passes: Vec<BoardPass<D>>,
) -> Together<BoardPass<D>>
    requires can { CanAllDo lines.now actors.old }
    requires handed { AreHanded shared.now.desk.table.shared.key.value.start
        shared.now.desk.table.shared.table_id (length actors.old + 1) passes.items }
    ensures back { AreBack shared.now.desk.table.shared.table_id (length actors.old)
        result.passes.items }
    ensures ran { IfOk result.end (λ ran. HaveRun shared.now.desk.table.shared.key.value.start
        now lines.now actors.old actors.new ran.parts result.passes.items) }
    ensures held { IfOk result.end (λ ran. WasHeld shared.now.desk.table.shared.key.value.start
        now line.now cells.items result.cells.items ran.report result.passes.items) }
    ensures cut { OnErr result.end (WereCut shared.now.desk.table.shared.key.value.start
        now lines.now actors.old result.passes.items) }
    ensures begun { WasBegun shared.now.desk.table.shared.key.value.start
        now cells.items result.passes.items }
{
    let (all, mut back, mut parts) = match three_rooms(alloc, actors.len() + 1) {
        Ok(rooms) => rooms,
        Err(want) => {
            return Together {
                passes,
                cells,
                end: Err(want),
            };
        }
    };
    let way = way_by(rt, shared, gate, passes.remove(0));
    let all = deal(rt, alloc, shared, gate, actors, passes, all);
    let (held, all) = act_beside_round(rt, alloc, way, cells, line, all, lines, now);
    let Held { port, cells, end } = held;
    let GatedPort {
        port,
        gate: _,
        actor: _,
    } = port;
    back.push_reserved(port.into_pass());
    let starved = is_any_starved(&all);
    gather(all, actors, &mut back, &mut parts);
    Together {
        passes: back,
        cells,
        end: ended(starved, List::from(parts), end),
    }
}
