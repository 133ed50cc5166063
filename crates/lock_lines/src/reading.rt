//! A script is read line by line, up to the first fault.
ghost use Rattle.std.specs.Prelude.{◌≤◌, ◌<◌, ◌-◌, ◌^◌, length, IfOk, OnOk};
ghost use Rattle.scenario_reader.specs.Faults.{GivesReading};
ghost use Rattle.scenario_reader.specs.TextLines.{line_view};
ghost use Rattle.lock_lines.specs.Reading.{admit, lock_lines_of, with_line, Leads};

use crate::command::read_command;
use crate::lock_line::LockLine;
use diego_names::List;
use scenario_lines::LineError;
use scenario_reader::{Rest, ScriptFault, TextLine, next_line};
use std::alloc::Global;

/// The most lines that a script has, blank ones not counted.
const LINES: usize = 200_000;

/// The lines of the script that these bytes are, or the first fault. Lines are numbered in 32
/// bits, so there is room for one line a byte.
#[tactic(auto, unfolding(crate::specs::Reading::lock_lines_of))]
pub fn read_lock_lines(alloc: Global, bytes: &[u8]) -> Result<List<LockLine>, ScriptFault>
    requires { length bytes.now < 2 ^ 32 - 1 }
    ensures exact { GivesReading result (lock_lines_of bytes.now) }
    ensures few { IfOk result (λ lines. length lines ≤ 200000) }
{
    let mut lines = List::new(alloc);
    let mut rest = Rest { number: 1, bytes };
    while let Some((line, behind)) = next_line(rest) {
        add_line(alloc, &mut lines, line)?;
        rest = behind;
    }
    Ok(lines)
}

// What one more line comes to.
fn add_line(
    alloc: Global,
    lines: &mut List<LockLine>,
    line: TextLine<'_>,
) -> Result<(), ScriptFault>
    ensures step { Leads result lines.new (with_line lines.old (line_view line.entry)) }
    ensures few { OnOk result (length lines.new ≤ 200000) }
{
    let number = line.number;
    match read_command(alloc, line.text) {
        Ok(command) => admit(
            lines,
            number,
            LockLine {
                line: number,
                command,
            },
        ),
        Err(LineError::Flawed(flaw)) => Err(ScriptFault::of_flaw(flaw, number)),
        Err(LineError::OutOfMemory) => Err(ScriptFault::OutOfMemory),
    }
}

// An item more, which a line brings, unless there are enough already.
fn admit<X: Copy>(items: &mut List<X>, line: u32, item: X) -> Result<(), ScriptFault>
    ensures step { Leads result items.new (admit items.old line item) }
    ensures few { OnOk result (length items.new ≤ 200000) }
{
    if items.len() >= LINES {
        return Err(ScriptFault::TooMuch { line });
    }
    items.push(item)?;
    Ok(())
}
