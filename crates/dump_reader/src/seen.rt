//! What the lines so far have named, and whether the next line may stand behind them.
ghost use Rattle.std.specs.Prelude.{◌≡◌, ◌≤◌, ◌+◌, nat_lt, OnOk};
ghost use Rattle.dump_lines.specs.declared.dump_line.DumpLine.TheVariants as kind;
ghost use Rattle.dump_reader.specs.Accepted.{no_dump};
ghost use Rattle.dump_reader.specs.Faults.{GivesDump};
ghost use Rattle.dump_reader.specs.Lines.{asks_too_much, verdict, verdict_by, with_line};
ghost use Rattle.dump_reader.specs.Tracked.{IsTracked};

use crate::dump::Dump;
use crate::fault::{DumpError, DumpFault};
use crate::names::{Instances, Names};
use crate::repeats::has_instance_twice;
use dump_lines::{ActualRow, CellState, DesiredRow, DumpLine, Place, Question, TaskRow};
use std::alloc::Global;

/// The most cells that a dump has of either kind, and the most questions.
const CELLS: usize = 1_000;

const QUESTIONS: usize = 1_000;

/// The most tasks, processes and ordinary rows.
const TASKS: usize = 50_000;

const PROCESSES: usize = 100_000;

const ROWS: usize = 250_000;

/// The most instances that are wanted, and the most that have a container.
const INSTANCES: u64 = 250_000;

/// The most instances for which room may be asked.
const ASKED: u32 = 50_000;

/// What a dump names once, so that each name is found by its hash, and its sums.
#[derive(Drop)]
pub(crate) struct Seen {
    /// The cells with a state, and those that are listed.
    pub cells: Names,
    pub listed: Names,
    /// The zones of either.
    pub zones: Names,
    pub listed_zones: Names,
    pub tasks: Names,
    /// The processes that are desired.
    pub processes: Names,
    /// The instances with an ordinary row.
    pub rows: Instances,
    /// How many instances have a container.
    pub told: u64,
    /// How many instances are wanted.
    pub wanted: u64,
}

impl Seen {
    /// No line was read.
    pub fn new(alloc: Global) -> Seen
        ensures { IsTracked result no_dump }
    {
        Seen {
            cells: Names::new(alloc),
            listed: Names::new(alloc),
            zones: Names::new(alloc),
            listed_zones: Names::new(alloc),
            tasks: Names::new(alloc),
            processes: Names::new(alloc),
            rows: Instances::new(alloc),
            told: 0,
            wanted: 0,
        }
    }

    /// Sees a line, if it may stand behind this dump. After a fault nothing more is to be read.
    pub fn admit(
        &mut self,
        alloc: Global,
        dump: &Dump,
        line: u32,
        said: &DumpLine,
    ) -> Result<(), DumpError>
        requires { IsTracked self.old dump.now }
        ensures verdict { GivesDump result (verdict dump.now line said.now) }
        ensures tracked { OnOk result (IsTracked self.new (with_line dump.now line said.now)) }
    {
        match said {
            DumpLine::Asks(question) => admit_question(dump, line, question),
            DumpLine::State(state) => self.admit_state(alloc, dump, line, state),
            DumpLine::Listed(place) => self.admit_listed(dump, line, place),
            DumpLine::Task(task) => self.admit_task(dump, line, task),
            DumpLine::Desired(desired) => self.admit_desired(dump, line, desired),
            DumpLine::Actual(row) => self.admit_row(dump, line, row),
            DumpLine::Domain => Ok(()),
        }
    }

    fn admit_state(
        &mut self,
        alloc: Global,
        dump: &Dump,
        line: u32,
        state: &CellState,
    ) -> Result<(), DumpError>
        requires { IsTracked self.old dump.now }
        ensures verdict { GivesDump result (verdict dump.now line (kind.State state.now)) }
        ensures tracked { OnOk result
            (IsTracked self.new (with_line dump.now line (kind.State state.now))) }
    {
        let is_new = self.cells.add(state.place.cell)?;
        let repeats = has_instance_twice(alloc, state)?;
        let count = state.instances.len();
        let is_much = (dump.states.len() >= CELLS) | is_over(self.told, count);
        verdict(!is_new | repeats, is_much, line)?;
        self.zones.add(state.place.zone)?;
        self.told += count as u64;
        Ok(())
    }

    fn admit_listed(&mut self, dump: &Dump, line: u32, place: &Place) -> Result<(), DumpError>
        requires { IsTracked self.old dump.now }
        ensures verdict { GivesDump result (verdict dump.now line (kind.Listed place.now)) }
        ensures tracked { OnOk result
            (IsTracked self.new (with_line dump.now line (kind.Listed place.now))) }
    {
        let is_new = self.listed.add(place.cell)?;
        verdict(!is_new, dump.listed.len() >= CELLS, line)?;
        self.listed_zones.add(place.zone)?;
        Ok(())
    }

    fn admit_task(&mut self, dump: &Dump, line: u32, task: &TaskRow) -> Result<(), DumpError>
        requires { IsTracked self.old dump.now }
        ensures verdict { GivesDump result (verdict dump.now line (kind.Task task.now)) }
        ensures tracked { OnOk result
            (IsTracked self.new (with_line dump.now line (kind.Task task.now))) }
    {
        let is_new = self.tasks.add(task.task)?;
        verdict(!is_new, dump.tasks.len() >= TASKS, line)
    }

    fn admit_desired(
        &mut self,
        dump: &Dump,
        line: u32,
        desired: &DesiredRow,
    ) -> Result<(), DumpError>
        requires { IsTracked self.old dump.now }
        ensures verdict { GivesDump result (verdict dump.now line (kind.Desired desired.now)) }
        ensures tracked { OnOk result
            (IsTracked self.new (with_line dump.now line (kind.Desired desired.now))) }
    {
        let is_new = self.processes.add(desired.process)?;
        let wanted = self.wanted + desired.instances as u64;
        let is_much = (dump.desired.len() >= PROCESSES) | (wanted > INSTANCES);
        verdict(!is_new, is_much, line)?;
        self.wanted = wanted;
        Ok(())
    }

    fn admit_row(&mut self, dump: &Dump, line: u32, row: &ActualRow) -> Result<(), DumpError>
        requires { IsTracked self.old dump.now }
        ensures verdict { GivesDump result (verdict dump.now line (kind.Actual row.now)) }
        ensures tracked { OnOk result
            (IsTracked self.new (with_line dump.now line (kind.Actual row.now))) }
    {
        if !row.ordinary {
            return Ok(());
        }
        let is_new = self.rows.add(row.instance)?;
        verdict(!is_new, dump.actual.len() >= ROWS, line)
    }
}

fn admit_question(dump: &Dump, line: u32, question: &Question) -> Result<(), DumpError>
    ensures { GivesDump result (verdict dump.now line (kind.Asks question.now)) }
{
    let is_much = (dump.questions.len() >= QUESTIONS) | asks_too_much(question);
    verdict(false, is_much, line)
}

// Whether so many instances more on cells are too many.
#[tactic(auto, using(crate::proofs::Counting::over_limit))]
fn is_over(told: u64, more: usize) -> bool
    requires { told ≤ 250000 }
    ensures { result ≡ nat_lt 250000 (told + more) }
{
    more as u64 > INSTANCES - told
}

fn asks_too_much(question: &Question) -> bool
    ensures { result ≡ asks_too_much question.now }
{
    match question {
        Question::Fit { instances, .. } => *instances > ASKED,
        _ => false,
    }
}

fn verdict(is_twice: bool, is_much: bool, line: u32) -> Result<(), DumpError>
    ensures { GivesDump result (verdict_by is_twice is_much line) }
{
    if is_twice {
        return Err(DumpError::Faulty {
            fault: DumpFault::Twice,
            line,
        });
    }
    if is_much {
        return Err(DumpError::Faulty {
            fault: DumpFault::TooMuch,
            line,
        });
    }
    Ok(())
}
