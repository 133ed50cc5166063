//! The text of a script of lock commands, which is printed at once.
ghost use Rattle.std.specs.Prelude.{◌++◌};
ghost use Rattle.lock_runs.specs.Courses.{summary_behind};
ghost use Rattle.lock_runs.specs.Lines.{IsFinished, IsTold};

use crate::summing::summed;
use byte_ports::Sink;
use disk_trait::Disk;
use locket::{LockFault, Locket};
use program_ends::{Ending, written};
use std::alloc::Global;

/// Prints a text, and ends so, unless the sink fails.
fn print<K: Sink>(sink: &mut K, ending: Ending, text: &[u8]) -> Ending
    ensures { IsTold ending result text.now
        (K.held sink.old) (K.held sink.new) (K.faults sink.old) (K.faults sink.new) }
{
    if written(sink, text) {
        ending
    } else {
        Ending::Unwritten
    }
}

/// Prints these answers and the summary at once, and ends so, unless the sink fails or memory runs out.
fn print_whole<K: Sink, D: Disk>(
    alloc: Global,
    sink: &mut K,
    locket: &Locket<D>,
    answers: Vec<u8>,
    ending: Ending,
) -> Ending
    ensures { IsTold ending result
        (answers.items ++ summary_behind locket.now.base locket.now.log)
        (K.held sink.old) (K.held sink.new) (K.faults sink.old) (K.faults sink.new) }
{
    match summed(alloc, locket, answers) {
        Ok(text) => print(sink, ending, &text),
        Err(_) => Ending::OutOfMemory,
    }
}

/// Prints the answers of lines that ended so, with the summary. Where memory ran out nothing is printed.
pub(crate) fn finish<K: Sink, D: Disk>(
    alloc: Global,
    sink: &mut K,
    locket: &Locket<D>,
    answers: Vec<u8>,
    end: Result<(), LockFault>,
) -> Ending
    ensures { IsFinished end result
        (answers.items ++ summary_behind locket.now.base locket.now.log)
        (K.held sink.old) (K.held sink.new) (K.faults sink.old) (K.faults sink.new) }
{
    match end {
        Ok(()) => print_whole(alloc, sink, locket, answers, Ending::Done),
        Err(LockFault::Disk) => print_whole(alloc, sink, locket, answers, Ending::Doubt),
        Err(LockFault::OutOfMemory) => Ending::OutOfMemory,
    }
}
