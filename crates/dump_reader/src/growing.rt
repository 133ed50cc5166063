//! A dump gets one line more.
ghost use Rattle.std.specs.Prelude.{◌≡◌, ◌+◌, ◌<◌, ◌≤◌, ◌^◌, OnOk};
ghost use Rattle.dump_reader.specs.Accepted.{no_dump};
ghost use Rattle.dump_reader.specs.Lines.{with_line};
ghost use Rattle.dump_reader.specs.Tracked.{lines_counted};

use crate::dump::{Asked, Dump, LineCounts};
use diego_names::{List, OutOfMemory};
use dump_lines::DumpLine;
use std::alloc::Global;

/// A dump without lines.
pub(crate) fn no_dump(alloc: Global) -> Dump
    ensures { result ≡ no_dump }
{
    Dump {
        counts: LineCounts {
            actual: 0,
            cells: 0,
            desired: 0,
            domains: 0,
            states: 0,
            tasks: 0,
        },
        states: List::new(alloc),
        listed: List::new(alloc),
        tasks: List::new(alloc),
        desired: List::new(alloc),
        actual: List::new(alloc),
        questions: List::new(alloc),
    }
}

/// Adds a line. There is room to count it.
pub(crate) fn add_line(dump: &mut Dump, line: u32, said: DumpLine) -> Result<(), OutOfMemory>
    requires { lines_counted dump.old.counts + 1 < 2 ^ 32 }
    ensures added { OnOk result (dump.new ≡ with_line dump.old line said) }
    ensures counted { OnOk result
        (lines_counted dump.new.counts ≤ lines_counted dump.old.counts + 1) }
{
    match said {
        DumpLine::Asks(question) => dump.questions.push(Asked { line, question }),
        DumpLine::State(state) => {
            dump.counts.states += 1;
            dump.states.push(state)
        }
        DumpLine::Listed(place) => {
            dump.counts.cells += 1;
            dump.listed.push(place)
        }
        DumpLine::Task(task) => {
            dump.counts.tasks += 1;
            dump.tasks.push(task)
        }
        DumpLine::Desired(desired) => {
            dump.counts.desired += 1;
            dump.desired.push(desired)
        }
        DumpLine::Actual(row) => {
            dump.counts.actual += 1;
            if row.ordinary {
                dump.actual.push(row)
            } else {
                Ok(())
            }
        }
        DumpLine::Domain => {
            dump.counts.domains += 1;
            Ok(())
        }
    }
}
