//! The phase in which the next line stands.
ghost use Rattle.std.specs.Prelude.{◌≡◌, Some, is_some, OnOk, OnErr};
ghost use Rattle.std.specs.List.{list_any};
ghost use Rattle.scenario_reader.specs.Order.{is_cells_line};
ghost use Rattle.scenario_reader.specs.Steps.{begun_at, with_line};

use crate::adding::add;
use crash_backoff::Moment;
use diego_names::{List, OutOfMemory};
use scenario_lines::{Line, Phase, RoundLine};
use std::alloc::Global;
use std::marker::Model;

/// A phase to which lines may still come.
#[derive(Drop)]
pub(crate) struct OpenPhase {
    at: Moment,
    lines: Vec<Line>,
    round: Option<RoundLine>,
    // whether a cell acts in it
    has_cells: bool,
}

impl Model for OpenPhase {
    ghost use Rattle.std.specs.Prelude.{◌≡◌};
    ghost use Rattle.std.specs.List.{list_any};
    ghost use Rattle.scenario_reader.specs.Order.{is_cells_line};
    ghost use Rattle.scenario_lines.specs.declared.script.Phase.{Phase as APhase};

    ghost Value = { APhase };

    ghost view = { λ o. record { at = o.at; lines = o.lines.items; round = o.round } };

    ghost invariant = { λ o. o.has_cells ≡ list_any is_cells_line o.lines.items };
}

impl OpenPhase {
    /// A phase that begins.
    pub fn new(alloc: Global, at: Moment) -> OpenPhase
        ensures { result ≡ begun_at at }
    {
        OpenPhase {
            at,
            lines: Vec::new(alloc),
            round: None,
            has_cells: false,
        }
    }

    pub fn at(&self) -> Moment
        ensures { result ≡ self.now.at }
    {
        self.at
    }

    pub fn has_round(&self) -> bool
        ensures { result ≡ is_some self.now.round }
    {
        self.round.is_some()
    }

    pub fn has_cells(&self) -> bool
        ensures { result ≡ list_any is_cells_line self.now.lines }
    {
        self.has_cells
    }

    /// Adds a line. Where memory runs out the phase stays.
    pub fn add_line(&mut self, line: Line) -> Result<(), OutOfMemory>
        ensures ok { OnOk result (self.new ≡ with_line self.old line) }
        ensures err { OnErr result (self.new ≡ self.old) }
    {
        let is_cells = is_cells_line(&line);
        add(&mut self.lines, line)?;
        self.has_cells = self.has_cells | is_cells;
        Ok(())
    }

    /// Adds the round.
    pub fn add_round(&mut self, round: RoundLine)
        ensures { self.new ≡ record self.old { round = Some round } }
    {
        self.round = Some(round);
    }

    /// The phase, to which no more lines come.
    pub fn closed(self) -> Phase
        ensures { result ≡ self }
    {
        let OpenPhase {
            at,
            lines,
            round,
            ..
        } = self;
        Phase {
            at,
            lines: List::from(lines),
            round,
        }
    }
}

fn is_cells_line(line: &Line) -> bool
    ensures { result ≡ is_cells_line line.now }
{
    line.act.is_of_cell()
}
