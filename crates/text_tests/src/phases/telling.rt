//! How a phase is told, from what a test can copy.
use super::fitting::fits;
use super::name;
use bbs_model::Event;
use cell_records::JobName;
use convergence::Report;
use crash_backoff::Moment;
use diego_names::{List, OutOfMemory};
use phase_text::{answers_by_line, events_by_key, phase_text};
use scenario_lines::{Actor, Answered, Line, Phase, RoundLine, Script};
use std::alloc::Global;
use std::process::Abort;
use std::snapshot::Snapshot;
use std::test::Fail;

/// What a round reports that asked so many cells, and left one job at most without a cell.
#[derive(Clone, Copy)]
pub struct Reported {
    pub asked: u32,
    pub own: u64,
    pub foreign: u64,
    pub unplaced: Option<JobName>,
}

/// What a round reports that asked two cells, made so many transitions and left nothing open.
pub const fn complete(own: u64) -> Reported {
    Reported {
        asked: 2,
        own,
        foreign: 0,
        unplaced: None,
    }
}

/// A phase of these actors, each a cell or a client, and what came of its lines and of the round of that line,
/// if it has one. Lists are made of it where it is told, so that a test holds nothing that has to be dropped.
#[derive(Clone, Copy)]
pub struct Case<'a> {
    pub actors: &'a [(bool, &'a str)],
    pub lines: &'a [Line],
    pub round: Option<u32>,
    pub parts: &'a [&'a [Answered]],
    pub report: Option<Reported>,
    pub events: &'a [Event],
}

fn listed<X: Copy>(alloc: Global, of: &[X]) -> Result<List<X>, OutOfMemory> {
    let mut items = List::new(alloc);
    for item in of {
        items.push(*item)?;
    }
    Ok(items)
}

fn listed_one<X: Copy>(alloc: Global, item: Option<X>) -> Result<List<X>, OutOfMemory> {
    let mut items = List::new(alloc);
    match item {
        None => {}
        Some(item) => items.push(item)?,
    }
    Ok(items)
}

fn actors(alloc: Global, of: &[(bool, &str)]) -> Result<List<Actor>, Fail> {
    let mut actors = List::new(alloc);
    for (cell, text) in of {
        let name = name(text)?;
        actors.push(Actor { cell: *cell, name })?;
    }
    Ok(actors)
}

fn script(alloc: Global, of: &[(bool, &str)]) -> Result<Script, Fail> {
    let actors = actors(alloc, of)?;
    let phases = List::new(alloc);
    Ok(Script { actors, phases })
}

fn round(alloc: Global, line: u32) -> RoundLine {
    RoundLine {
        line,
        lose_ask: List::new(alloc),
        lose_stop: List::new(alloc),
        lose_start: List::new(alloc),
        lose_reply: List::new(alloc),
    }
}

fn phase(alloc: Global, of: &[Line], at: Option<u32>) -> Result<Phase, OutOfMemory> {
    let lines = listed(alloc, of)?;
    let round = match at {
        None => None,
        Some(line) => Some(round(alloc, line)),
    };
    let at = Moment(0);
    Ok(Phase { at, lines, round })
}

fn add_part(
    alloc: Global,
    parts: &mut List<List<Answered>>,
    answers: &[Answered],
) -> Result<(), OutOfMemory> {
    parts.push(listed(alloc, answers)?)
}

fn parts(alloc: Global, of: &[&[Answered]]) -> Result<List<List<Answered>>, OutOfMemory> {
    let mut parts = List::new(alloc);
    for answers in of {
        add_part(alloc, &mut parts, answers)?;
    }
    Ok(parts)
}

fn report(alloc: Global, line: u32, of: &Reported) -> Result<Report, OutOfMemory> {
    let unplaced = listed_one(alloc, of.unplaced)?;
    Ok(Report {
        line,
        start: 0,
        end: 0,
        asked: of.asked,
        lost: 0,
        refused: List::new(alloc),
        unplaced,
        foreign: of.foreign,
        own: of.own,
        stopped: List::new(alloc),
        stores: Snapshot::of(&List::new(alloc)),
    })
}

fn report_of(alloc: Global, case: &Case<'_>) -> Result<Option<Report>, OutOfMemory> {
    match (case.round, &case.report) {
        (Some(line), Some(of)) => match report(alloc, line, of) {
            Err(why) => Err(why),
            Ok(report) => Ok(Some(report)),
        },
        _ => Ok(None),
    }
}

/// How a phase is told of which these are the answers, in any order.
#[tactic(auto, using(crate::proofs::Fitting::fits_same))]
fn told_of(
    alloc: Global,
    script: &Script,
    phase: &Phase,
    parts: &List<List<Answered>>,
    report: &Option<Report>,
    events: &[Event],
) -> Result<Vec<u8>, Fail> {
    let answers = answers_by_line(alloc, parts)?;
    let events = events_by_key(alloc, events)?;
    if !fits(script.actors.items(), phase.lines.items(), answers.items()) {
        return Err(Fail::from("answers of another phase"));
    }
    Ok(phase_text(
        alloc,
        script,
        phase,
        answers.items(),
        report,
        events.items(),
    )?)
}

fn told_with(
    alloc: Global,
    script: &Script,
    phase: &Phase,
    parts: &List<List<Answered>>,
    case: &Case<'_>,
) -> Result<Vec<u8>, Fail> {
    let report = report_of(alloc, case)?;
    told_of(alloc, script, phase, parts, &report, case.events)
}

fn told_in(
    alloc: Global,
    script: &Script,
    phase: &Phase,
    case: &Case<'_>,
) -> Result<Vec<u8>, Fail> {
    let parts = parts(alloc, case.parts)?;
    told_with(alloc, script, phase, &parts, case)
}

fn told_by(alloc: Global, script: &Script, case: &Case<'_>) -> Result<Vec<u8>, Fail> {
    let phase = phase(alloc, case.lines, case.round)?;
    told_in(alloc, script, &phase, case)
}

/// How a phase is told.
fn told(alloc: Global, case: &Case<'_>) -> Result<Vec<u8>, Fail> {
    let script = script(alloc, case.actors)?;
    told_by(alloc, &script, case)
}

// Lines, with a newline behind each.
fn lines_of(alloc: Global, lines: &[&str]) -> Result<Vec<u8>, Fail> {
    let mut text = Vec::new(alloc);
    for line in lines {
        text.extend_from_slice(line.as_bytes())?;
        text.push(b'\n')?;
    }
    Ok(text)
}

/// That the phase is told by these lines, and no others.
pub fn tells(rt: &impl Abort, alloc: Global, case: &Case<'_>, want: &[&str]) -> Result<(), Fail> {
    let text = told(alloc, case)?;
    let wanted = lines_of(alloc, want)?;
    assert_eq!(rt; text.as_slice(), wanted.as_slice());
    Ok(())
}
