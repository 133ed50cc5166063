//! A whole phase.
ghost use Rattle.std.specs.Prelude.{◌≡◌, ◌<◌, true, length, Some, None, IfOk, OnErr};
ghost use Rattle.phase_runs.specs.Actors.{CanAllDo};
ghost use Rattle.phase_runs.specs.Phases.{PhaseCut, PhaseRan};
ghost use Rattle.phase_threads.specs.Clients.{are_of_clients};

use crate::actors::run_actors;
use crate::with_round::{Together, run_with_round};
use bbs_board::Board;
use bbs_shared::SharedBoard;
use byte_ports::Gate;
use diego_names::OutOfMemory;
use disk_trait::Disk;
use phase_actors::ActorState;
use phase_runs::{Ran, put_reps, take_reps};
use scenario_lines::{Line, Phase, RoundLine};
use std::alloc::Global;
use std::sync::Wait;
use std::thread::Threads;

// A phase without a round, whose actors are at the board at once.
fn run_shared<R: Threads + Wait + Sync, D: Disk + Drop + Send, G: Gate + Sync>(
    rt: &R,
    alloc: Global,
    board: Board<D>,
    gate: &G,
    actors: &mut [ActorState],
    phase: &Phase,
) -> (Board<D>, Result<Ran, OutOfMemory>)
    requires none { phase.now.round ≡ None }
    requires can { CanAllDo phase.now.lines actors.old }
    requires few { length actors.old < 4096 }
    ensures ran { IfOk result.1 (λ ran. PhaseRan D.told phase.now actors.old actors.new
        ran.parts ran.report board result.0) }
    ensures cut { OnErr result.1 (PhaseCut D.told phase.now actors.old board result.0) }
{
    let (shared, passes) = match SharedBoard::start(alloc, board, actors.len() as u32 + 1) {
        Ok(begun) => begun,
        Err((board, want)) => return (board, Err(want)),
    };
    let lines = phase.lines.items();
    let (passes, end) = run_actors(rt, alloc, &shared, gate, actors, lines, phase.at, passes);
    let board = shared.close(passes);
    match end {
        Ok(parts) => (
            board,
            Ok(Ran {
                parts,
                report: None,
            }),
        ),
        Err(want) => (board, Err(want)),
    }
}

// A phase with a round that is held beside the actors. The cells among them have no lines, so that
// their reps may be away meanwhile.
fn run_shared_with_round<R: Threads + Wait + Sync, D: Disk + Drop + Send, G: Gate + Sync>(
    rt: &R,
    alloc: Global,
    board: Board<D>,
    gate: &G,
    actors: &mut [ActorState],
    phase: &Phase,
    line: &RoundLine,
) -> (Board<D>, Result<Ran, OutOfMemory>)
    requires round { phase.now.round ≡ Some line.now }
    requires clients { are_of_clients phase.now.lines ≡ true }
    requires can { CanAllDo phase.now.lines actors.old }
    requires few { length actors.old < 4096 }
    ensures ran { IfOk result.1 (λ ran. PhaseRan D.told phase.now actors.old actors.new
        ran.parts ran.report board result.0) }
    ensures cut { OnErr result.1 (PhaseCut D.told phase.now actors.old board result.0) }
{
    let cells = match take_reps(alloc, actors) {
        Ok(cells) => cells,
        Err(want) => return (board, Err(want)),
    };
    let (shared, passes) = match SharedBoard::start(alloc, board, actors.len() as u32 + 1) {
        Ok(begun) => begun,
        Err((board, want)) => {
            put_reps(actors, cells);
            return (board, Err(want));
        }
    };
    let Together {
        passes,
        cells: held,
        end,
    } = run_with_round(
        rt,
        alloc,
        &shared,
        gate,
        actors,
        cells,
        phase.lines.items(),
        line,
        phase.at,
        passes,
    );
    put_reps(actors, held);
    (shared.close(passes), end)
}

// Whether one actor at most has lines.
fn is_for_one(phase: &Phase) -> bool {
    match phase.lines.items() {
        [] => true,
        [first, rest @ ..] => rest.iter().all(|line| line.actor == first.actor),
    }
}

// Whether no line is a cell's.
pub(crate) fn are_of_clients(phase: &Phase) -> bool
    ensures { result ≡ are_of_clients phase.now.lines }
{
    phase
        .lines
        .items()
        .iter()
        .all(|line| !line.act.is_of_cell())
}

/// Runs a phase: its actors do their lines at once, each on a thread of its own, and its round is
/// held beside them, if it has one. In `Err` memory ran out, in a call too: what was done by then
/// stays. A round alone, and lines of one actor without a round, make no thread; nor does a phase
/// whose round would want the rep of a cell that has lines meanwhile: there the actors have their
/// turns one after another, and the round behind them.
pub fn run_phase<R: Threads + Wait + Sync, D: Disk + Drop + Send, G: Gate + Sync>(
    rt: &R,
    alloc: Global,
    board: Board<D>,
    gate: &G,
    actors: &mut [ActorState],
    phase: &Phase,
) -> (Board<D>, Result<Ran, OutOfMemory>)
    requires can { CanAllDo phase.now.lines actors.old }
    requires few { length actors.old < 4096 }
    ensures ran { IfOk result.1 (λ ran. PhaseRan D.told phase.now actors.old actors.new
        ran.parts ran.report board result.0) }
    ensures cut { OnErr result.1 (PhaseCut D.told phase.now actors.old board result.0) }
{
    match &phase.round {
        None => {
            if !is_for_one(phase) {
                return run_shared(rt, alloc, board, gate, actors, phase);
            }
        }
        Some(line) => {
            if !phase.lines.is_empty() && are_of_clients(phase) {
                return run_shared_with_round(rt, alloc, board, gate, actors, phase, line);
            }
        }
    }
    let mut board = board;
    let end = phase_runs::run_phase(alloc, &mut board, gate, actors, phase);
    (board, end)
}
