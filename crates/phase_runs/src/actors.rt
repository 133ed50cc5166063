//! The actors of a phase, one after another.
ghost use Rattle.std.specs.Prelude.{◌≡◌, ◌<◌, ◌^◌, length, IfOk, OnErr};
ghost use Rattle.phase_runs.specs.Actors.{ActorsCut, ActorsRan, CanAllDo};

use crate::acting::act_on;
use bbs_board::Board;
use byte_ports::Gate;
use crash_backoff::Moment;
use diego_names::{List, OutOfMemory};
use disk_trait::Disk;
use phase_actors::ActorState;
use scenario_lines::{Answered, Line};
use std::alloc::Global;

/// Each actor does those of the lines that are its own, in the order of their numbers: an actor's
/// number is one more than its place. The answers of each come in a list of its own. In `Err`
/// memory ran out, in a call too: then each did its first lines, and those behind it none.
pub fn run_actors<D: Disk, G: Gate>(
    alloc: Global,
    board: &mut Board<D>,
    gate: &G,
    actors: &mut [ActorState],
    lines: &[Line],
    now: Moment,
) -> Result<List<List<Answered>>, OutOfMemory>
    requires can { CanAllDo lines.now actors.old }
    requires few { length actors.old < 2 ^ 32 }
    ensures ran { IfOk result (λ parts. ActorsRan D.told now lines.now actors.old actors.new
        parts board.old board.new) }
    ensures cut { OnErr result (ActorsCut D.told now lines.now actors.old actors.new
        board.old board.new) }
{
    let mut parts = List::new(alloc);
    for index in 0..actors.len() {
        let mut part = Vec::new(alloc);
        let by = index as u32 + 1;
        match act_on(
            alloc,
            board,
            gate,
            by,
            &mut actors[index],
            lines,
            now,
            &mut part,
        ) {
            Ok(()) => {}
            Err(want) => return Err(want),
        }
        match parts.push(List::from(part)) {
            Ok(()) => {}
            Err(want) => return Err(want),
        }
    }
    Ok(parts)
}
