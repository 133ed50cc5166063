//! A whole phase, on a board that nobody else calls meanwhile.
ghost use Rattle.std.specs.Prelude.{◌<◌, ◌^◌, length, Some, IfOk, OnErr};
ghost use Rattle.phase_runs.specs.Actors.{CanAllDo};
ghost use Rattle.phase_runs.specs.Phases.{CutAlone, PhaseCut, PhaseRan, RoundAlone};

use crate::actors::run_actors;
use crate::reps::{put_reps, take_reps};
use crate::rounds::round_on;
use bbs_board::Board;
use bbs_model::CallFault;
use byte_ports::Gate;
use convergence::Report;
use crash_backoff::Moment;
use diego_names::{List, OutOfMemory};
use disk_trait::Disk;
use phase_actors::ActorState;
use scenario_lines::{Answered, Phase, RoundLine};
use std::alloc::Global;

/// What came of a phase that ran whole.
#[derive(Drop)]
pub struct Ran {
    /// The answers of each actor, in the order of the actors and of their lines.
    pub parts: List<List<Answered>>,
    /// What the round reports; nothing where the phase has none, or a disk fault ended it.
    pub report: Option<Report>,
}

// A round over the reps of the cells among the actors, which have what it leaves.
fn run_round<D: Disk, G: Gate>(
    alloc: Global,
    board: &mut Board<D>,
    gate: &G,
    actors: &mut [ActorState],
    line: &RoundLine,
    now: Moment,
) -> Result<Option<Report>, OutOfMemory>
    ensures ran { IfOk result (λ report. RoundAlone D.told now (Some line.now) actors.old actors.new
        report board.old board.new) }
    ensures cut { OnErr result (CutAlone D.told now (Some line.now) actors.old
        board.old board.new) }
{
    let mut reps = match take_reps(alloc, actors) {
        Ok(reps) => reps,
        Err(want) => return Err(want),
    };
    let end = round_on(alloc, board, gate, &mut reps, line, now);
    put_reps(actors, reps);
    match end {
        Ok(report) => Ok(Some(report)),
        Err(fault) => match fault {
            CallFault::Disk { place: _ } => Ok(None),
            CallFault::OutOfMemory => Err(OutOfMemory),
        },
    }
}

// The round of a phase, if it has one.
fn run_any_round<D: Disk, G: Gate>(
    alloc: Global,
    board: &mut Board<D>,
    gate: &G,
    actors: &mut [ActorState],
    round: &Option<RoundLine>,
    now: Moment,
) -> Result<Option<Report>, OutOfMemory>
    ensures ran { IfOk result (λ report. RoundAlone D.told now round.now actors.old actors.new
        report board.old board.new) }
    ensures cut { OnErr result (CutAlone D.told now round.now actors.old
        board.old board.new) }
{
    match round {
        None => Ok(None),
        Some(line) => match run_round(alloc, board, gate, actors, line, now) {
            Ok(report) => Ok(report),
            Err(want) => Err(want),
        },
    }
}

/// Runs a phase on a board that nobody else calls: each actor does its lines, in the order of their
/// numbers, and then the round is held, as the number 0. In `Err` memory ran out, in a call too:
/// what was done by then stays.
pub fn run_phase<D: Disk, G: Gate>(
    alloc: Global,
    board: &mut Board<D>,
    gate: &G,
    actors: &mut [ActorState],
    phase: &Phase,
) -> Result<Ran, OutOfMemory>
    requires can { CanAllDo phase.now.lines actors.old }
    requires few { length actors.old < 2 ^ 32 }
    ensures ran { IfOk result (λ ran. PhaseRan D.told phase.now actors.old actors.new
        ran.parts ran.report board.old board.new) }
    ensures cut { OnErr result (PhaseCut D.told phase.now actors.old board.old board.new) }
{
    let now = phase.at;
    let parts = match run_actors(alloc, board, gate, actors, phase.lines.items(), now) {
        Ok(parts) => parts,
        Err(want) => return Err(want),
    };
    match run_any_round(alloc, board, gate, actors, &phase.round, now) {
        Ok(report) => Ok(Ran { parts, report }),
        Err(want) => Err(want),
    }
}
