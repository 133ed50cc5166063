//! The run of the scenario of a number.
ghost use Rattle.std.specs.Prelude.{◌≡◌, []};
ghost use Rattle.byte_ports.specs.Memory.{sink_bytes};
ghost use Rattle.bbs_board.specs.Opening.{IsBoard};
ghost use Rattle.bbs_model.specs.Tables.{no_rows};
ghost use Rattle.disk_trait.specs.Memory.{memory_past};
ghost use Rattle.disk_trait.specs.Past.{content};
ghost use Rattle.large_runs.specs.Large.{LargeEnds, PrintsSummary, TextEnds, ending_by};
ghost use Rattle.program_ends.specs.declared.ending.Ending.TheVariants.{OutOfMemory as NoMemory};
ghost use Rattle.program_run.specs.Runs.{IsEmpty};
ghost use Rattle.scenario_maker.specs.Generated.{generated};

use crate::doubts::is_calm;
use crate::prepared::prepared;
use crate::silent::SilentTeller;
use byte_ports::{Gate, MemorySink, MemorySource, Sink};
use disk_trait::MemoryDisk;
use program_ends::{Ending, written};
use program_run::{Ended, run};
use run_theorem::played_runs_are_faithful;
use scenario_maker::generate;
use std::alloc::Global;
use std::sync::Wait;
use std::thread::Threads;

/// What ended for want of memory, and tells of nothing.
fn idle(alloc: Global) -> Ended
    ensures ending { result.ending ≡ NoMemory }
    ensures empty { IsEmpty result }
{
    Ended {
        ending: Ending::OutOfMemory,
        log: Vec::new(alloc),
        marks: Vec::new(alloc),
        answers: Vec::new(alloc),
        reports: Vec::new(alloc),
    }
}

/// Runs a text on the empty board of a disk in memory. What is printed of it goes into a sink in memory.
fn run_text<R: Threads + Wait + Sync, G: Gate + Sync>(
    rt: &R,
    alloc: Global,
    text: Vec<u8>,
    disk: MemoryDisk,
    sink: &mut MemorySink,
    gate: &G,
) -> Ended
    requires board { IsBoard no_rows (content (memory_past disk)) }
    requires empty { sink_bytes sink.old ≡ [] }
    ensures { TextEnds text.items result.ending result (sink_bytes sink.new) }
{
    played_runs_are_faithful::<MemoryDisk>();
    let mut source = MemorySource::new(text, Vec::new(alloc));
    let (ended, _disk) = run::<SilentTeller, R, MemorySource, MemorySink, MemoryDisk, G>(
        rt,
        alloc,
        &mut source,
        sink,
        disk,
        gate,
    );
    ended
}

/// Runs the scenario of a number. What is printed of it goes into a sink in memory.
fn run_number<R: Threads + Wait + Sync, G: Gate + Sync>(
    rt: &R,
    alloc: Global,
    number: u32,
    sink: &mut MemorySink,
    gate: &G,
) -> Ended
    requires { sink_bytes sink.old ≡ [] }
    ensures { TextEnds (generated number) result.ending result (sink_bytes sink.new) }
{
    let text = match generate(alloc, number) {
        Ok(text) => text,
        Err(_) => return idle(alloc),
    };
    match prepared(alloc) {
        Ok(disk) => run_text(rt, alloc, text, disk, sink, gate),
        Err(_) => idle(alloc),
    }
}

/// How it ends whose summary was printed, whole or not.
fn ending_by(whole: bool) -> Ending
    ensures { result ≡ ending_by whole }
{
    if whole {
        Ending::Done
    } else {
        Ending::Unwritten
    }
}

/// Prints the summary of a run of which each phase ran.
fn print_summary<K: Sink>(sink: &mut K, mut ended: Ended, summary: &[u8]) -> Ended
    ensures { PrintsSummary ended result summary.now
        (K.held sink.old) (K.held sink.new) (K.faults sink.old) (K.faults sink.new) }
{
    ended.ending = ending_by(written(sink, summary));
    ended
}

/// Runs the scenario of a number on an empty board in memory, and prints its summary. Where that memory
/// fails, or the text is no scenario, it ends as where memory runs out, and prints nothing.
pub fn run_large<R: Threads + Wait + Sync, K: Sink, G: Gate + Sync>(
    rt: &R,
    alloc: Global,
    number: u32,
    sink: &mut K,
    gate: &G,
) -> Ended
    ensures { LargeEnds number result.ending result
        (K.held sink.old) (K.held sink.new) (K.faults sink.old) (K.faults sink.new) }
{
    let mut told = MemorySink::new(alloc, Vec::new(alloc));
    let ended = run_number(rt, alloc, number, &mut told, gate);
    match ended.ending {
        Ending::Done => print_summary(sink, ended, told.bytes()),
        Ending::OutOfMemory if is_calm(&ended.log) => ended,
        _ => idle(alloc),
    }
}
