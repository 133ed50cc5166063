//! What a run does: it reads a scenario, opens a board, and plays the one on the other.
ghost use Rattle.std.specs.Prelude.{◌≡◌, true};
ghost use Rattle.byte_ports.specs.Cause.{HasCause};
ghost use Rattle.bbs_board.specs.View.{IsFresh};
ghost use Rattle.program_ends.specs.Ending.{status_of};
ghost use Rattle.program_ends.specs.Opening.{is_before_board};
ghost use Rattle.program_ends.specs.Ports.{ports_of};
ghost use Rattle.program_ends.specs.Reading.{is_read};
ghost use Rattle.scenario_reader.specs.Facts.{IsScript};
ghost use Rattle.program_run.specs.Runs.{PlaysOn, RunEnds, ScriptEnds};

use crate::ended::{Ended, idle};
use crate::reading::read;
use bbs_board::{Board, Closed};
use byte_ports::{Gate, Sink, Source};
use disk_trait::Disk;
use program_ends::{ended_before, open};
use scenario_lines::Script;
use scenario_player::{Played, Teller, play};
use std::alloc::Global;
use std::sync::Wait;
use std::thread::Threads;

/// Plays a scenario on a board that was just loaded, closes it, and gives the disk back.
fn play_on<
    T: Teller + Drop,
    R: Threads + Wait + Sync,
    K: Sink,
    D: Disk + Drop + Send,
    G: Gate + Sync,
>(rt: &R, alloc: Global, script: &Script, board: Board<D>, sink: &mut K, gate: &G) -> (Ended, D)
    requires script { IsScript script.now }
    requires fresh { IsFresh board }
    requires since { board.since ≡ D.moment board.disk }
    requires faults { board.faults ≡ D.fault_count board.disk }
    ensures { PlaysOn D.told D.fault_count D.moment T.wording script.now board.base
        result.0.ending result.0
        (ports_of (K.held sink.old) (K.faults sink.old)
        (D.told board.disk) (D.fault_count board.disk) (D.moment board.disk))
        (ports_of (K.held sink.new) (K.faults sink.new)
        (D.told result.1) (D.fault_count result.1) (D.moment result.1)) }
{
    let (board, played) = play::<T, R, K, D, G>(rt, alloc, script, board, sink, gate);
    let Played {
        ending,
        answers,
        reports,
    } = played;
    let Closed { disk, log, marks } = board.close();
    let ended = Ended {
        ending,
        log,
        marks,
        answers,
        reports,
    };
    (ended, disk)
}

/// Plays a scenario on the board that the disk holds, and gives the disk back.
fn run_script<
    T: Teller + Drop,
    R: Threads + Wait + Sync,
    K: Sink,
    D: Disk + Drop + Send,
    G: Gate + Sync,
>(rt: &R, alloc: Global, script: &Script, sink: &mut K, disk: D, gate: &G) -> (Ended, D)
    requires script { IsScript script.now }
    ensures { ScriptEnds D.told D.fault_count D.moment T.wording script.now result.0.ending result.0
        (ports_of (K.held sink.old) (K.faults sink.old)
        (D.told disk) (D.fault_count disk) (D.moment disk))
        (ports_of (K.held sink.new) (K.faults sink.new)
        (D.told result.1) (D.fault_count result.1) (D.moment result.1)) }
{
    match open(alloc, sink, disk) {
        Ok(board) => play_on::<T, R, K, D, G>(rt, alloc, script, board, sink, gate),
        Err((ending, disk)) => (idle(alloc, ending), disk),
    }
}

/// Reads a scenario, and plays it on the board that the disk holds, with its phases told in the words
/// of `T`. The source is read whole before the disk is looked at.
pub fn run<
    T: Teller + Drop,
    R: Threads + Wait + Sync,
    S: Source,
    K: Sink,
    D: Disk + Drop + Send,
    G: Gate + Sync,
>(rt: &R, alloc: Global, source: &mut S, sink: &mut K, disk: D, gate: &G) -> (Ended, D)
    ensures ends { RunEnds D.told D.fault_count D.moment T.wording result.0.ending result.0
        (S.left source.old) (S.left source.new)
        (ports_of (K.held sink.old) (K.faults sink.old)
        (D.told disk) (D.fault_count disk) (D.moment disk))
        (ports_of (K.held sink.new) (K.faults sink.new)
        (D.told result.1) (D.fault_count result.1) (D.moment result.1)) }
    ensures cause { HasCause (is_read result.0.ending) (S.faults source.old) (S.faults source.new) }
    ensures unopened { is_before_board (status_of result.0.ending) ≡ true → result.1 ≡ disk }
{
    match read(alloc, source) {
        Ok(script) => run_script::<T, R, K, D, G>(rt, alloc, &script, sink, disk, gate),
        Err(ending) => (idle(alloc, ended_before(alloc, sink, ending)), disk),
    }
}
