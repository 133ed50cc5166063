//! What the lines so far have come to.
ghost use Rattle.std.specs.Prelude.{◌≡◌, ◌++◌, option_to_list, IfOk, OnOk};
ghost use Rattle.scenario_lines.specs.Outlines.{content_with, line_with};
ghost use Rattle.scenario_reader.specs.Phases.{round_line};
ghost use Rattle.scenario_reader.specs.Steps.{acted, begin_phase, is_before, rounded, script_in, start, step, IsSmall, Leads};

use crate::actors::Actors;
use crate::fault::ScriptFault;
use crate::open_phase::OpenPhase;
use crash_backoff::Moment;
use diego_names::{List, OutOfMemory};
use scenario_lines::{Act, ActHead, Line, Losses, Outline, Phase, RoundLine, Script};
use std::alloc::Global;
use std::mem;

/// The most actors that a scenario has.
const ACTORS: usize = 256;

/// The most runs of lines that a scenario has, with a round counted as one.
const RUNS: u64 = 200_000;

/// What the lines so far have come to.
#[derive(Drop)]
pub(crate) struct Reading {
    pub actors: Actors,
    /// The phases behind which another stands.
    pub closed: List<Phase>,
    pub last: Option<OpenPhase>,
    /// How many runs the lines so far have.
    pub runs: u64,
}

impl Reading {
    /// No line was read.
    pub fn new(alloc: Global) -> Reading
        ensures { result ≡ start }
    {
        Reading {
            actors: Actors::new(alloc),
            closed: List::new(alloc),
            last: None,
            runs: 0,
        }
    }

    /// Adds a line, whose actor does this if it has one. After a fault nothing more is to be read.
    pub fn add(
        &mut self,
        alloc: Global,
        line: u32,
        outline: Outline,
        act: &Act,
    ) -> Result<(), ScriptFault>
        requires { IsSmall self.old }
        ensures step { Leads result self.new (step self.old line (content_with act.now outline)) }
        ensures small { OnOk result (IsSmall self.new) }
    {
        match outline {
            Outline::Phase(at) => self.begin(alloc, line, at),
            Outline::Acts(head) => self.add_act(line, head, act),
            Outline::Round(losses) => self.add_round(line, losses),
        }
    }

    fn begin(&mut self, alloc: Global, line: u32, at: Moment) -> Result<(), ScriptFault>
        requires { IsSmall self.old }
        ensures step { Leads result self.new (begin_phase self.old line at) }
        ensures small { OnOk result (IsSmall self.new) }
    {
        if is_before(at, &self.last) {
            return Err(ScriptFault::BadOrder { line });
        }
        let last = mem::replace(&mut self.last, Some(OpenPhase::new(alloc, at)));
        close(&mut self.closed, last)?;
        Ok(())
    }

    fn add_act(&mut self, line: u32, said: ActHead, act: &Act) -> Result<(), ScriptFault>
        requires { IsSmall self.old }
        ensures step { Leads result self.new (acted self.old line (line_with act.now said)) }
        ensures small { OnOk result (IsSmall self.new) }
    {
        let Some(phase) = &mut self.last else {
            return Err(ScriptFault::BadOrder { line });
        };
        if act.is_of_cell() && phase.has_round() {
            return Err(ScriptFault::BadOrder { line });
        }
        let actor = self.actors.number(said.actor)?;
        let runs = self.runs + said.times as u64;
        if self.actors.len() > ACTORS || runs > RUNS {
            return Err(ScriptFault::TooMuch { line });
        }
        phase.add_line(Line {
            line,
            actor,
            act: *act,
            lost: said.lost,
            times: said.times,
        })?;
        self.runs = runs;
        Ok(())
    }

    fn add_round(&mut self, line: u32, losses: Losses) -> Result<(), ScriptFault>
        requires { IsSmall self.old }
        ensures step { Leads result self.new (rounded self.old line losses) }
        ensures small { OnOk result (IsSmall self.new) }
    {
        let Some(phase) = &mut self.last else {
            return Err(ScriptFault::BadOrder { line });
        };
        if phase.has_round() || phase.has_cells() {
            return Err(ScriptFault::BadOrder { line });
        }
        let runs = self.runs + 1;
        if runs > RUNS {
            return Err(ScriptFault::TooMuch { line });
        }
        phase.add_round(round_line(line, losses));
        self.runs = runs;
        Ok(())
    }

    /// The scenario, where there are no more lines.
    pub fn script(self, alloc: Global) -> Result<Script, OutOfMemory>
        ensures { IfOk result (λ script. script ≡ script_in self) }
    {
        let Reading {
            actors,
            mut closed,
            last,
            ..
        } = self;
        close(&mut closed, last)?;
        Ok(Script {
            actors: actors.list(alloc)?,
            phases: closed,
        })
    }
}

// Whether a moment is less than that of the last phase.
fn is_before(at: Moment, last: &Option<OpenPhase>) -> bool
    ensures { result ≡ is_before at last.now }
{
    match last {
        Some(phase) => at.0 < phase.at().0,
        None => false,
    }
}

// The last phase goes to the others.
fn close(closed: &mut List<Phase>, last: Option<OpenPhase>) -> Result<(), OutOfMemory>
    ensures { OnOk result (closed.new ≡ closed.old ++ option_to_list last) }
{
    if let Some(phase) = last {
        closed.push(phase.closed())?;
    }
    Ok(())
}

fn round_line(line: u32, losses: Losses) -> RoundLine
    ensures { result ≡ round_line line losses }
{
    RoundLine {
        line,
        lose_ask: losses.ask,
        lose_stop: losses.stop,
        lose_start: losses.start,
        lose_reply: losses.reply,
    }
}
