//! The phases of a scenario on a board, one after another.
ghost use Rattle.std.specs.Prelude.{◌≡◌, ◌+◌, ◌<◌, ◌^◌, [], IfOk, OnOk, OnErr};
ghost use Rattle.std.specs.List.{Contains};
ghost use Rattle.bbs_board.specs.Doubts.{doubts_in};
ghost use Rattle.phase_runs.specs.Actors.{AreSameActors};
ghost use Rattle.program_ends.specs.declared.ending.Ending.TheVariants as ending;
ghost use Rattle.scenario_reader.specs.Facts.{IsScript};
ghost use Rattle.scenario_player.specs.Actors.{starting_actors};
ghost use Rattle.scenario_player.specs.Kept.{nothing_kept};
ghost use Rattle.scenario_player.specs.Plays.{IsUntold, Plays};
ghost use Rattle.scenario_player.specs.Tellings.{IsPhaseTold, PhaseEnds, PhasesEnd};

use crate::actors::actors_of;
use crate::counting::doubts_in;
use crate::kept::Kept;
use crate::summing::{ending_by, finish};
use crate::teller::Teller;
use bbs_board::Board;
use byte_ports::{Gate, Sink};
use convergence::Report;
use diego_names::OutOfMemory;
use disk_trait::Disk;
use phase_actors::ActorState;
use phase_text::answers_by_line;
use phase_threads::run_phase;
use program_ends::{Ending, written};
use scenario_lines::{Answered, Phase, Script};
use std::alloc::Global;
use std::sync::Wait;
use std::thread::Threads;

/// What came of a scenario.
#[derive(Drop)]
pub struct Played {
    /// Why it ended: all phases ran, the disk failed in the last one that did, the text could not be
    /// written, or memory ran out.
    pub ending: Ending,
    /// The answers of the phases that were told: phase after phase, in each by line.
    pub answers: Vec<Answered>,
    /// The reports of their rounds, in the order of the phases.
    pub reports: Vec<Report>,
}

/// Runs a phase behind phases in which the disk never failed, and makes its text. In `Err` memory ran
/// out, and what is kept is as before.
fn run_and_tell<T: Teller, R: Threads + Wait + Sync, D: Disk + Drop + Send, G: Gate + Sync>(
    rt: &R,
    alloc: Global,
    script: &Script,
    board: Board<D>,
    gate: &G,
    actors: &mut [ActorState],
    phase: &Phase,
    teller: &mut T,
    kept: &mut Kept,
) -> (Board<D>, Result<Vec<u8>, OutOfMemory>)
    requires script { IsScript script.now }
    requires among { Contains script.now.phases phase.now }
    requires same { AreSameActors (starting_actors script.now.actors) actors.old }
    requires calm { doubts_in board.log ≡ 0 }
    requires before { T.told teller.old board.base board.log }
    requires few { kept.old.phases + 1 < 2 ^ 64 }
    ensures told { IfOk result.1 (λ text. IsPhaseTold D.told T.wording script.now phase.now
        actors.old actors.new board result.0 kept.old kept.new text.items) }
    ensures behind { OnOk result.1 (T.told teller.new result.0.base result.0.log) }
    ensures counted { OnOk result.1 (kept.new.phases ≡ kept.old.phases + 1) }
    ensures untold { OnErr result.1 ((kept.new ≡ kept.old)
        × IsUntold D.told phase.now actors.old board result.0) }
{
    let from = board.place();
    let (board, end) = run_phase(rt, alloc, board, gate, actors, phase);
    let ran = match end {
        Ok(ran) => ran,
        Err(want) => return (board, Err(want)),
    };
    let answers = match answers_by_line(alloc, &ran.parts) {
        Ok(answers) => answers,
        Err(want) => return (board, Err(want)),
    };
    let made = teller.tell(
        alloc,
        script,
        phase,
        &board,
        from,
        answers.items(),
        &ran.report,
    );
    let text = match made {
        Ok(text) => text,
        Err(want) => return (board, Err(want)),
    };
    match kept.add(answers, ran.report) {
        Ok(()) => (board, Ok(text)),
        Err(want) => (board, Err(want)),
    }
}

/// Runs a phase behind phases in which the disk never failed, and prints its text. `Done` says that the
/// next one may run.
fn play_phase<T: Teller, R: Threads + Wait + Sync, K: Sink, D: Disk + Drop + Send, G: Gate + Sync>(
    rt: &R,
    alloc: Global,
    script: &Script,
    board: Board<D>,
    sink: &mut K,
    gate: &G,
    actors: &mut [ActorState],
    phase: &Phase,
    teller: &mut T,
    kept: &mut Kept,
) -> (Board<D>, Ending)
    requires script { IsScript script.now }
    requires among { Contains script.now.phases phase.now }
    requires same { AreSameActors (starting_actors script.now.actors) actors.old }
    requires calm { doubts_in board.log ≡ 0 }
    requires before { T.told teller.old board.base board.log }
    requires few { kept.old.phases + 1 < 2 ^ 64 }
    ensures ends { PhaseEnds D.told T.wording script.now phase.now result.1 actors.old actors.new
        board result.0 kept.old kept.new
        (K.held sink.old) (K.held sink.new) (K.faults sink.old) (K.faults sink.new) }
    ensures behind { result.1 ≡ ending.Done → T.told teller.new result.0.base result.0.log }
{
    let from = board.place() as usize;
    let (board, told) = run_and_tell(rt, alloc, script, board, gate, actors, phase, teller, kept);
    let text = match told {
        Ok(text) => text,
        Err(_) => return (board, Ending::OutOfMemory),
    };
    if !written(sink, &text) {
        return (board, Ending::Unwritten);
    }
    let ending = ending_by(doubts_in(&board.log()[from..]));
    (board, ending)
}

/// Runs the phases up to the end of the script or the first in which the disk fails, and prints the
/// text of each when it has ended.
fn play_phases<T: Teller, R: Threads + Wait + Sync, K: Sink, D: Disk + Drop + Send, G: Gate + Sync>(
    rt: &R,
    alloc: Global,
    script: &Script,
    mut board: Board<D>,
    sink: &mut K,
    gate: &G,
    actors: &mut [ActorState],
    teller: &mut T,
    kept: &mut Kept,
) -> (Board<D>, Ending)
    requires script { IsScript script.now }
    requires begin { actors.old ≡ starting_actors script.now.actors }
    requires kept { kept.old ≡ nothing_kept }
    requires fresh { board.log ≡ [] }
    requires before { T.told teller.old board.base board.log }
    ensures ends { PhasesEnd D.told T.wording script.now result.1 board result.0 kept.new
        (K.held sink.old) (K.held sink.new) (K.faults sink.old) (K.faults sink.new) }
{
    let phases = script.phases.items();
    for phase in phases {
        let (left, ending) = play_phase(
            rt, alloc, script, board, sink, gate, actors, phase, teller, kept,
        );
        board = left;
        match ending {
            Ending::Done => {}
            other => return (board, other),
        }
    }
    (board, Ending::Done)
}

/// Plays the phases with the actors as they begin, tells of them from now on, and prints the
/// summary.
fn play_all<
    T: Teller + Drop,
    R: Threads + Wait + Sync,
    K: Sink,
    D: Disk + Drop + Send,
    G: Gate + Sync,
>(
    rt: &R,
    alloc: Global,
    script: &Script,
    board: Board<D>,
    sink: &mut K,
    gate: &G,
    kept: &mut Kept,
) -> (Board<D>, Ending)
    requires script { IsScript script.now }
    requires kept { kept.old ≡ nothing_kept }
    requires fresh { board.log ≡ [] }
    ensures plays { Plays D.told T.wording script.now result.1 kept.new.answers kept.new.reports
        board result.0
        (K.held sink.old) (K.held sink.new) (K.faults sink.old) (K.faults sink.new) }
{
    let mut actors = match actors_of(alloc, script.actors.items()) {
        Ok(actors) => actors,
        Err(_) => return (board, Ending::OutOfMemory),
    };
    let mut teller = match T::begin(alloc, &board) {
        Ok(teller) => teller,
        Err(_) => return (board, Ending::OutOfMemory),
    };
    let (board, ending) = play_phases(
        rt,
        alloc,
        script,
        board,
        sink,
        gate,
        &mut actors,
        &mut teller,
        kept,
    );
    let ending = finish(alloc, &board, sink, ending, kept.phases());
    (board, ending)
}

/// Plays a scenario on a board that was just loaded: its phases one after another, and the text of
/// each when it has ended. A phase in which the disk fails is the last one that runs; behind it, or
/// behind the last phase, the summary is printed. Each phase is told in the words of `T`.
pub fn play<
    T: Teller + Drop,
    R: Threads + Wait + Sync,
    K: Sink,
    D: Disk + Drop + Send,
    G: Gate + Sync,
>(
    rt: &R,
    alloc: Global,
    script: &Script,
    board: Board<D>,
    sink: &mut K,
    gate: &G,
) -> (Board<D>, Played)
    requires script { IsScript script.now }
    requires fresh { board.log ≡ [] }
    ensures plays { Plays D.told T.wording script.now result.1.ending
        result.1.answers.items result.1.reports.items board result.0
        (K.held sink.old) (K.held sink.new) (K.faults sink.old) (K.faults sink.new) }
{
    let mut kept = Kept::new(alloc);
    let (board, ending) = play_all::<T, R, K, D, G>(
        rt, alloc, script, board, sink, gate, &mut kept,
    );
    let (answers, reports) = kept.into_lists();
    let played = Played {
        ending,
        answers,
        reports,
    };
    (board, played)
}
