//! The text of a phase: its answers by line.
ghost use Rattle.std.specs.Prelude.{◌≡◌, Err, IfOk};
ghost use Rattle.pair_runs.specs.Accounts.{is_any_disk, is_disk_outcome, outcome_of};
ghost use Rattle.pair_runs.specs.Served.{is_disk_end};
ghost use Rattle.pair_runs.specs.Telling.{IsByLine, IsTextOf, answer_words, answers_words};

use diego_names::OutOfMemory;
use pair_lines::{PairAnswered, PairEnded, answer_text};
use scenario_lines::Actor;
use standby_board::PairFault;
use std::alloc::Global;

/// The answers by line. Those to one line stay in their order. It takes the time of a sort.
fn by_line(alloc: Global, answers: &[PairAnswered]) -> Result<Vec<PairAnswered>, OutOfMemory>
    ensures { IfOk result (λ sorted. IsByLine answers.now sorted.items) }
{
    let mut all = Vec::from_slice(alloc, answers)?;
    all.sort_by_key(|answered| answered.line)?;
    Ok(all)
}

/// The line of an answer to one of these actors. There is none of an answer to none of them.
fn answer_words(
    alloc: Global,
    actors: &[Actor],
    answered: &PairAnswered,
) -> Result<Vec<u8>, OutOfMemory>
    ensures { IfOk result (λ text. text.items ≡ answer_words actors.now answered.now) }
{
    let at = answered.actor.saturating_sub(1) as usize;
    match actors.get(at) {
        Some(actor) => Ok(answer_text(alloc, &actor.name, answered)?),
        None => Ok(Vec::new(alloc)),
    }
}

/// The lines of answers, one after another.
fn answers_words(
    alloc: Global,
    actors: &[Actor],
    answers: &[PairAnswered],
) -> Result<Vec<u8>, OutOfMemory>
    ensures { IfOk result (λ text. text.items ≡ answers_words actors.now answers.now) }
{
    let mut text = Vec::new(alloc);
    for answered in answers {
        let line = answer_words(alloc, actors, answered)?;
        text.extend_from_slice(&line)?;
    }
    Ok(text)
}

/// The text of a phase with these answers.
pub(crate) fn phase_text(
    alloc: Global,
    actors: &[Actor],
    answers: &[PairAnswered],
) -> Result<Vec<u8>, OutOfMemory>
    ensures { IfOk result (λ text. IsTextOf actors.now answers.now text.items) }
{
    let answers = by_line(alloc, answers)?;
    answers_words(alloc, actors, &answers)
}

/// Whether a disk failed in a call that ended so.
fn is_disk_end(ended: &PairEnded) -> bool
    ensures { result ≡ is_disk_outcome (outcome_of ended.now) }
{
    match ended {
        PairEnded::Fault(fault) => is_disk_fault(*fault),
        PairEnded::ReplyLost(Err(fault)) => is_disk_fault(*fault),
        PairEnded::Got(_) | PairEnded::CallLost | PairEnded::ReplyLost(Ok(_)) => false,
    }
}

fn is_disk_fault(fault: PairFault) -> bool
    ensures { result ≡ is_disk_end (Err fault) }
{
    match fault {
        PairFault::Disk { .. } | PairFault::StandbyDisk { .. } | PairFault::Behind { .. } => true,
        PairFault::OutOfMemory => false,
    }
}

/// Whether a disk failed in one of these calls.
pub(crate) fn is_any_disk(answers: &[PairAnswered]) -> bool
    ensures { result ≡ is_any_disk answers.now }
{
    answers.iter().any(|answered| is_disk_end(&answered.end))
}
