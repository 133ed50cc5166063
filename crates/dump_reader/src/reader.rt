//! A dump is read line by line, up to the first fault, and then its questions are looked at.
ghost use Rattle.std.specs.Prelude.{◌<◌, ◌≤◌, ◌+◌, ◌-◌, ◌^◌, length, IfOk, OnOk};
ghost use Rattle.dump_reader.specs.Accepted.{accepted, answerable, dump_of, no_dump, step_on};
ghost use Rattle.dump_reader.specs.Answerable.{questions_verdict};
ghost use Rattle.dump_reader.specs.Facts.{IsDump};
ghost use Rattle.dump_reader.specs.Faults.{GivesDump, said_on};
ghost use Rattle.dump_reader.specs.Lines.{admit};
ghost use Rattle.dump_reader.specs.TextLines.{line_view, nonblank_lines};
ghost use Rattle.dump_reader.specs.Tracked.{lines_counted, IsTracked, GivesReading, Leads};

use crate::answerable::question_fault;
use crate::dump::Dump;
use crate::fault::{DumpError, DumpFault};
use crate::growing::{self, no_dump};
use crate::seen::Seen;
use crate::text_lines::{Rest, TextLine, next_line};
use dump_lines::{DumpLine, LineError, read_dump_line};
use std::alloc::Global;

/// The dump that the lines so far have come to.
#[derive(Drop)]
pub(crate) struct Reading {
    pub dump: Dump,
    pub seen: Seen,
}

/// The dump that these bytes are, or its first fault. Its lines are numbered in 32 bits, so there
/// is room for one line a byte.
pub fn read_dump(alloc: Global, bytes: &[u8]) -> Result<Dump, DumpError>
    requires { length bytes.now < 2 ^ 32 - 1 }
    ensures exact { GivesDump result (dump_of bytes.now) }
    ensures facts { IfOk result IsDump }
{
    read_whole(alloc, bytes)
}

#[tactic(auto, unfolding(crate::specs::Accepted::dump_of))]
fn read_whole(alloc: Global, bytes: &[u8]) -> Result<Dump, DumpError>
    requires { length bytes.now < 2 ^ 32 - 1 }
    ensures { GivesDump result (dump_of bytes.now) }
{
    let reading = read_lines(alloc, bytes)?;
    answerable(alloc, reading)
}

// The dump, unless one of its questions can't be answered.
fn answerable(alloc: Global, reading: Reading) -> Result<Dump, DumpError>
    requires { IsTracked reading.seen reading.dump }
    ensures { GivesDump result (answerable reading.dump) }
{
    match check_questions(alloc, &reading) {
        Ok(()) => {
            let Reading { dump, .. } = reading;
            Ok(dump)
        }
        Err(error) => Err(error),
    }
}

fn read_lines(alloc: Global, bytes: &[u8]) -> Result<Reading, DumpError>
    requires { length bytes.now < 2 ^ 32 - 1 }
    ensures read { GivesReading result (accepted no_dump (nonblank_lines bytes.now)) }
    ensures tracked { IfOk result (λ reading. IsTracked reading.seen reading.dump) }
{
    let mut dump = no_dump(alloc);
    let mut seen = Seen::new(alloc);
    let mut rest = Rest { number: 1, bytes };
    while let Some((line, behind)) = next_line(rest) {
        add_line(alloc, &mut dump, &mut seen, line)?;
        rest = behind;
    }
    Ok(Reading { dump, seen })
}

// What one more line comes to.
fn add_line(
    alloc: Global,
    dump: &mut Dump,
    seen: &mut Seen,
    line: TextLine<'_>,
) -> Result<(), DumpError>
    requires tracked { IsTracked seen.old dump.old }
    requires counted { lines_counted dump.old.counts + 1 < 2 ^ 32 }
    ensures step { Leads result dump.new (step_on dump.old (line_view line.entry)) }
    ensures tracked { OnOk result (IsTracked seen.new dump.new) }
    ensures counted { OnOk result
        (lines_counted dump.new.counts ≤ lines_counted dump.old.counts + 1) }
{
    let said = said_on(alloc, line)?;
    seen.admit(alloc, dump, line.number, &said)?;
    growing::add_line(dump, line.number, said)?;
    Ok(())
}

// What a line says by itself.
fn said_on(alloc: Global, line: TextLine<'_>) -> Result<DumpLine, DumpError>
    ensures { GivesDump result (said_on (line_view line.entry)) }
{
    match read_dump_line(alloc, line.text) {
        Ok(said) => Ok(said),
        Err(LineError::Faulty(fault)) => Err(DumpError::Faulty {
            fault: DumpFault::Line(fault),
            line: line.number,
        }),
        Err(LineError::OutOfMemory) => Err(DumpError::OutOfMemory),
    }
}

// Whether each question can be answered.
fn check_questions(alloc: Global, reading: &Reading) -> Result<(), DumpError>
    requires { IsTracked reading.now.seen reading.now.dump }
    ensures { GivesDump result (questions_verdict reading.now.dump reading.now.dump.questions) }
{
    let questions = reading.dump.questions.items();
    for asked in questions {
        if let Some(fault) = question_fault(alloc, reading, &asked.question)? {
            return Err(DumpError::Faulty {
                fault,
                line: asked.line,
            });
        }
    }
    Ok(())
}
