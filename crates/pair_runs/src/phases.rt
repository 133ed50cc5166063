//! Phases one after another, each told when it has ended.
ghost use Rattle.std.specs.Prelude.{◌≡◌, ◌≤◌, drop, length, IfOk, OnOk, OnErr};
ghost use Rattle.pair_runs.specs.Phases.{PhaseEnds, PhaseRuns, PhasesEnd};
ghost use Rattle.pair_runs.specs.Telling.{IsTextOf};
ghost use Rattle.pair_runs.specs.Turns.{RunsSome, RunsTurns, phase_turns};

use crate::account::Account;
use crate::calls::run_phase;
use crate::server::Server;
use crate::telling::{is_any_disk, phase_text};
use byte_ports::Sink;
use diego_names::OutOfMemory;
use pair_lines::PairAnswered;
use program_ends::written;
use scenario_lines::{Phase, Script};
use std::alloc::Global;

/// How phases ended.
#[derive(Clone, Copy, Debug, PartialEq, Eq)]
pub enum PhasesEnded {
    /// All ran, no disk failed, and their text is written.
    Done,
    /// A disk failed in the last that ran, and the text is written.
    Doubt,
    /// The sink failed in the text of the last that ran.
    Unwritten,
    /// Memory ran out in a phase, and the text is that of those before it.
    OutOfMemory,
}

/// The calls of a phase. In `Err` memory ran out behind some of them.
fn run_in<S: Server>(
    server: &mut S,
    script: &Script,
    phase: &Phase,
    account: &mut Account,
) -> Result<(), OutOfMemory>
    requires few { length script.now.actors ≤ 256 }
    ensures keeps { S.keeps server.old server.new }
    ensures ran { OnOk result (RunsTurns (phase_turns (length script.now.actors) phase.now)
        (S.view server.old) (S.view server.new) account.old.answers account.new.answers) }
    ensures cut { OnErr result (RunsSome (phase_turns (length script.now.actors) phase.now)
        (S.view server.old) (S.view server.new) account.old.answers account.new.answers) }
{
    run_phase(server, phase, script.actors.len() as u32, account)
}

/// The text of a phase of a script with these answers.
fn text_of(alloc: Global, script: &Script, answers: &[PairAnswered]) -> Result<Vec<u8>, OutOfMemory>
    ensures { IfOk result (λ text. IsTextOf script.now.actors answers.now text.items) }
{
    phase_text(alloc, script.actors.items(), answers)
}

/// The answers from this place on.
fn answers_from(account: &Account, from: usize) -> &[PairAnswered]
    requires { from ≤ length account.now.answers }
    ensures { result.now ≡ drop from account.now.answers }
{
    &account.answers()[from..]
}

/// Runs a phase, and makes its text.
fn run_and_tell<S: Server>(
    alloc: Global,
    script: &Script,
    server: &mut S,
    phase: &Phase,
    account: &mut Account,
) -> Result<Vec<u8>, OutOfMemory>
    requires few { length script.now.actors ≤ 256 }
    ensures keeps { S.keeps server.old server.new }
    ensures runs { PhaseRuns script.now phase.now result (S.view server.old) (S.view server.new)
        account.old.answers account.new.answers }
{
    let from = account.answers().len();
    match run_in(server, script, phase, account) {
        Ok(()) => text_of(alloc, script, answers_from(account, from)),
        Err(want) => Err(want),
    }
}

/// Runs a phase, and prints its text.
fn play_phase<S: Server, K: Sink>(
    alloc: Global,
    script: &Script,
    server: &mut S,
    sink: &mut K,
    phase: &Phase,
    account: &mut Account,
) -> PhasesEnded
    requires few { length script.now.actors ≤ 256 }
    ensures keeps { S.keeps server.old server.new }
    ensures ends { PhaseEnds script.now phase.now result (S.view server.old) (S.view server.new)
        account.old.answers account.new.answers
        (K.held sink.old) (K.held sink.new) (K.faults sink.old) (K.faults sink.new) }
{
    let from = account.answers().len();
    let text = match run_and_tell(alloc, script, server, phase, account) {
        Ok(text) => text,
        Err(_) => return PhasesEnded::OutOfMemory,
    };
    if !written(sink, &text) {
        return PhasesEnded::Unwritten;
    }
    if is_any_disk(answers_from(account, from)) {
        return PhasesEnded::Doubt;
    }
    PhasesEnded::Done
}

/// Runs these phases, up to one in which a disk fails, and prints the text of each when it has ended. It
/// tells how many ran.
pub fn run_phases<S: Server, K: Sink>(
    alloc: Global,
    script: &Script,
    server: &mut S,
    sink: &mut K,
    phases: &[Phase],
    account: &mut Account,
) -> (PhasesEnded, u64)
    requires few { length script.now.actors ≤ 256 }
    ensures keeps { S.keeps server.old server.new }
    ensures ends { PhasesEnd script.now phases.now result.0 result.1
        (S.view server.old) (S.view server.new) account.old.answers account.new.answers
        (K.held sink.old) (K.held sink.new) (K.faults sink.old) (K.faults sink.new) }
{
    let mut told = 0u64;
    for phase in phases {
        match play_phase(alloc, script, server, sink, phase, account) {
            PhasesEnded::Done => told += 1,
            PhasesEnded::Doubt => return (PhasesEnded::Doubt, told + 1),
            other => return (other, told),
        }
    }
    (PhasesEnded::Done, told)
}
