//! A scenario is read line by line, up to the first fault.
ghost use Rattle.std.specs.Prelude.{◌<◌, ◌-◌, ◌^◌, length, IfOk, OnOk};
ghost use Rattle.scenario_reader.specs.Accepted.{script_of};
ghost use Rattle.scenario_reader.specs.Facts.{IsScript};
ghost use Rattle.scenario_reader.specs.Faults.{GivesReading};
ghost use Rattle.scenario_reader.specs.Steps.{read_from, start, step_on, IsSmall, Leads};
ghost use Rattle.scenario_reader.specs.TextLines.{line_view, nonblank_lines};

use crate::fault::ScriptFault;
use crate::reading::Reading;
use crate::text_lines::{Rest, TextLine, next_line};
use scenario_lines::{Act, LineError, Script, read_outline};
use std::alloc::Global;

/// The scenario that these bytes are, or the first fault. Its lines are numbered in 32 bits, so
/// there is room for one line a byte.
pub fn read_script(alloc: Global, bytes: &[u8]) -> Result<Script, ScriptFault>
    requires { length bytes.now < 2 ^ 32 - 1 }
    ensures exact { GivesReading result (script_of bytes.now) }
    ensures facts { IfOk result IsScript }
{
    match read_lines(alloc, bytes) {
        Ok(read) => Ok(read.script(alloc)?),
        Err(fault) => Err(fault),
    }
}

fn read_lines(alloc: Global, bytes: &[u8]) -> Result<Reading, ScriptFault>
    requires { length bytes.now < 2 ^ 32 - 1 }
    ensures { GivesReading result (read_from start (nonblank_lines bytes.now)) }
{
    let mut reading = Reading::new(alloc);
    let mut act = Act::Evacuate;
    let mut rest = Rest { number: 1, bytes };
    while let Some((line, behind)) = next_line(rest) {
        add_line(alloc, &mut reading, line, &mut act)?;
        rest = behind;
    }
    Ok(reading)
}

// What one more line comes to. What an actor does is long: each line has it written to the same place, from
// which it is added.
fn add_line(
    alloc: Global,
    reading: &mut Reading,
    line: TextLine<'_>,
    act: &mut Act,
) -> Result<(), ScriptFault>
    requires { IsSmall reading.old }
    ensures step { Leads result reading.new (step_on reading.old (line_view line.entry)) }
    ensures small { OnOk result (IsSmall reading.new) }
{
    match read_outline(alloc, line.text, act) {
        Ok(outline) => reading.add(alloc, line.number, outline, act),
        Err(LineError::Flawed(flaw)) => Err(ScriptFault::of_flaw(flaw, line.number)),
        Err(LineError::OutOfMemory) => Err(ScriptFault::OutOfMemory),
    }
}
