//! The answers to a dump are printed, or why there is no dump.
ghost use Rattle.std.specs.Prelude.{◌≡◌};
ghost use Rattle.dump_reader.specs.Facts.{IsDump};
ghost use Rattle.headroom_engine.specs.Answering.{PutsAnswers, PutsFault, ending_of};
ghost use Rattle.headroom_engine.specs.declared.ending.Ending.TheVariants.{Faulty};

use crate::ending::{Ending, constant_line, fault_line};
use crate::planner::{Planned, Planner};
use crate::printing::{print_line, written};
use crate::words::Asked;
use byte_ports::Sink;
use dump_reader::{Dump, DumpFault};
use forecast_records::Verdict;
use std::alloc::Global;

/// How the program ends whose answers were written.
fn ending_of(verdict: Verdict) -> Ending
    ensures { result ≡ ending_of verdict }
{
    match verdict {
        Verdict::Room => Ending::Room,
        Verdict::Unplaced | Verdict::Short => Ending::NoRoom,
    }
}

fn print_answers<K: Sink>(sink: &mut K, planned: &Planned) -> Ending
    ensures { PutsAnswers result planned.now.verdict planned.now.text.items
        (K.held sink.old) (K.held sink.new) (K.faults sink.old) (K.faults sink.new) }
{
    if written(sink, &planned.text) {
        ending_of(planned.verdict)
    } else {
        Ending::Unwritten
    }
}

/// Prints the answers to a dump. Their text is had whole before any of it is written.
pub(crate) fn print_plan<P: Planner, K: Sink>(
    alloc: Global,
    asked: Asked,
    dump: &Dump,
    sink: &mut K,
) -> Ending
    requires { IsDump dump.now }
    ensures { PutsAnswers result (P.verdict dump.now) (P.text asked dump.now)
        (K.held sink.old) (K.held sink.new) (K.faults sink.old) (K.faults sink.new) }
{
    match P::plan(alloc, asked, dump) {
        Ok(planned) => print_answers(sink, &planned),
        Err(_) => Ending::OutOfMemory,
    }
}

fn print_fault_at<K: Sink>(alloc: Global, fault: DumpFault, at_line: u32, sink: &mut K) -> Ending
    ensures { PutsFault (Faulty fault at_line) result
        (K.held sink.old) (K.held sink.new) (K.faults sink.old) (K.faults sink.new) }
{
    match fault_line(alloc, fault, at_line) {
        Ok(text) => {
            print_line(sink, text.as_bytes());
            Ending::Faulty {
                fault,
                line: at_line,
            }
        }
        Err(_) => Ending::OutOfMemory,
    }
}

/// Prints why there is no dump. Where there was no memory for that line, it ends for want of it. Where
/// writing it fails, the ending stays.
pub(crate) fn print_fault<K: Sink>(alloc: Global, ending: Ending, sink: &mut K) -> Ending
    ensures { PutsFault ending result
        (K.held sink.old) (K.held sink.new) (K.faults sink.old) (K.faults sink.new) }
{
    match ending {
        Ending::Faulty { fault, line } => print_fault_at(alloc, fault, line, sink),
        Ending::OutOfMemory => Ending::OutOfMemory,
        other => {
            print_line(sink, constant_line(other));
            other
        }
    }
}
