//! The text of a phase.
ghost use Rattle.std.specs.Prelude.{◌≡◌, ◌++◌, IfOk, OnOk, Some};
ghost use Rattle.phase_text.specs.Answers.{AreActorAnswers, AreByLine};
ghost use Rattle.phase_text.specs.Texts.{answers_before, answers_behind, answers_words, events_words, lines_words, phase_words, round_words};

use crate::answering::answer_line;
use bbs_model::Event;
use convergence::Report;
use diego_names::OutOfMemory;
use record_print::{event_text, failed_round_text, report_text};
use scenario_lines::{Actor, Answered, Line, Phase, RoundLine, Script};
use std::alloc::Global;

/// As many bytes as most lines have.
const USUAL: usize = 200;

// Room for lines of the usual length is made at once. A text that grows is moved, and touches fresh memory each time.
fn usual_room(answers: &[Answered], events: &[Event]) -> usize {
    let lines = answers.len().saturating_add(events.len());
    lines.saturating_mul(USUAL)
}

/// The text of a phase, whose answers stand by line and whose events stand by key: each answer, and
/// the report of its round where the round's line stands among theirs, and then each event. A round
/// without a report was ended by a fault of the disk, and is told so.
#[tactic(auto, using(crate::proofs::Told::phase_told))]
pub fn phase_text(
    alloc: Global,
    script: &Script,
    phase: &Phase,
    answers: &[Answered],
    report: &Option<Report>,
    events: &[Event],
) -> Result<Vec<u8>, OutOfMemory>
    requires answers { AreActorAnswers script.now.actors phase.now.lines answers.now }
    requires by_line { AreByLine answers.now }
    ensures { IfOk result (λ text.
        text.items ≡ phase_words script.now phase.now answers.now report.now events.now) }
{
    let actors = script.actors.items();
    let lines = phase.lines.items();
    let mut text = Vec::with_capacity(alloc, usual_room(answers, events))?;
    add_lines(
        &mut text,
        alloc,
        actors,
        lines,
        &phase.round,
        answers,
        report,
    )?;
    add_events(&mut text, alloc, events)?;
    Ok(text)
}

fn add_lines(
    text: &mut Vec<u8>,
    alloc: Global,
    actors: &[Actor],
    lines: &[Line],
    round: &Option<RoundLine>,
    answers: &[Answered],
    report: &Option<Report>,
) -> Result<(), OutOfMemory>
    requires answers { AreActorAnswers actors.now lines.now answers.now }
    requires by_line { AreByLine answers.now }
    ensures { OnOk result (text.new.items ≡ text.old.items
        ++ lines_words actors.now lines.now round.now answers.now report.now) }
{
    match round {
        None => {
            add_answers(text, alloc, actors, lines, answers)?;
            Ok(())
        }
        Some(round) => {
            add_around(text, alloc, actors, lines, round, answers, report)?;
            Ok(())
        }
    }
}

// A round's line, and the answers on both sides of it.
#[tactic(auto, using(crate::proofs::Told::around_told))]
fn add_around(
    text: &mut Vec<u8>,
    alloc: Global,
    actors: &[Actor],
    lines: &[Line],
    round: &RoundLine,
    answers: &[Answered],
    report: &Option<Report>,
) -> Result<(), OutOfMemory>
    requires answers { AreActorAnswers actors.now lines.now answers.now }
    requires by_line { AreByLine answers.now }
    ensures { OnOk result (text.new.items ≡ text.old.items
        ++ lines_words actors.now lines.now (Some round.now) answers.now report.now) }
{
    let (before, behind) = split_by(answers, round.line);
    add_answers(text, alloc, actors, lines, before)?;
    add_round(text, alloc, round, report)?;
    add_answers(text, alloc, actors, lines, behind)?;
    Ok(())
}

// The answers to lines before a line, and the others.
fn split_by(answers: &[Answered], number: u32) -> (&[Answered], &[Answered])
    requires { AreByLine answers.now }
    ensures before { result.0.now ≡ answers_before number answers.now }
    ensures behind { result.1.now ≡ answers_behind number answers.now }
{
    let split = answers.partition_point(|answered| answered.line < number);
    answers.split_at(split)
}

fn add_answers(
    text: &mut Vec<u8>,
    alloc: Global,
    actors: &[Actor],
    lines: &[Line],
    answers: &[Answered],
) -> Result<(), OutOfMemory>
    requires { AreActorAnswers actors.now lines.now answers.now }
    ensures { OnOk result (text.new.items ≡ text.old.items
        ++ answers_words actors.now lines.now answers.now) }
{
    for answered in answers {
        let line = answer_line(alloc, actors, lines, answered)?;
        text.extend_from_slice(&line)?;
    }
    Ok(())
}

fn add_round(
    text: &mut Vec<u8>,
    alloc: Global,
    round: &RoundLine,
    report: &Option<Report>,
) -> Result<(), OutOfMemory>
    ensures { OnOk result (text.new.items ≡ text.old.items ++ round_words round.now report.now) }
{
    let line = round_text(alloc, round, report)?;
    text.extend_from_slice(&line)?;
    Ok(())
}

fn round_text(
    alloc: Global,
    round: &RoundLine,
    report: &Option<Report>,
) -> Result<Vec<u8>, OutOfMemory>
    ensures { IfOk result (λ text. text.items ≡ round_words round.now report.now) }
{
    match report {
        Some(report) => Ok(report_text(alloc, report)?),
        None => Ok(failed_round_text(alloc, round.line)?),
    }
}

fn add_events(text: &mut Vec<u8>, alloc: Global, events: &[Event]) -> Result<(), OutOfMemory>
    ensures { OnOk result (text.new.items ≡ text.old.items ++ events_words events.now) }
{
    for event in events {
        let line = event_text(alloc, event)?;
        text.extend_from_slice(&line)?;
    }
    Ok(())
}
