//! All that the program does.
ghost use Rattle.std.specs.Prelude.{◌≡◌, ◌⊎◌, ◌+◌, ◌==◌, ◌↔◌, None, Some, Err, List, ℕ, map, string_bytes};
ghost use Rattle.byte_ports.specs.Cause.{HasCause};
ghost use Rattle.byte_ports.specs.Content.{Lost};
ghost use Rattle.dump_reader.specs.Accepted.{dump_of};
ghost use Rattle.dump_reader.specs.Faults.{FaultAt};
ghost use Rattle.dump_reader.specs.declared.fault.DumpFault.{DumpFault as AFault};
ghost use Rattle.headroom_engine.specs.Ends.{EndsAt, EndsBy, NoFault, ProgramEnds, TellsAll, TellsFault, TellsNothing, TellsPartAt, TellsWholeAt, ports_now};
ghost use Rattle.headroom_engine.specs.Ports.{ports_of};
ghost use Rattle.headroom_engine.specs.Reading.{TellsFew, TellsMany, limit};
ghost use Rattle.headroom_engine.specs.Telling.{telling_for};
ghost use Rattle.headroom_engine.specs.Words.{asked_of};
ghost use Rattle.headroom_engine.specs.declared.words.Asked.{Asked as AnAsked};

use crate::answering::{print_fault, print_plan};
use crate::ending::{Ending, constant_line, number_of};
use crate::headroom_end::HeadroomEnd;
use crate::planner::Planner;
use crate::printing::print_line;
use crate::reading::read;
use crate::words::{Asked, read_words};
use byte_ports::{Sink, Source};
use std::alloc::Global;

/// Answers what the source gives. It is read whole before anything is answered.
fn answer<P: Planner, S: Source, K: Sink>(
    alloc: Global,
    asked: Asked,
    source: &mut S,
    sink: &mut K,
) -> Ending
    ensures { EndsBy P.text P.verdict result asked
        (ports_of (S.left source.old) (S.faults source.old) (K.held sink.old) (K.faults sink.old))
        (ports_of (S.left source.new) (S.faults source.new) (K.held sink.new) (K.faults sink.new)) }
{
    match read(alloc, source) {
        Ok(dump) => print_plan::<P, K>(alloc, asked, &dump, sink),
        Err(ending) => print_fault(alloc, ending, sink),
    }
}

/// Does what is asked for, and takes nothing from the source where that is nothing.
fn run<P: Planner, S: Source, K: Sink>(
    alloc: Global,
    asked: Option<Asked>,
    source: &mut S,
    sink: &mut K,
) -> Ending
    ensures ends { ProgramEnds P.text P.verdict result asked
        (ports_of (S.left source.old) (S.faults source.old) (K.held sink.old) (K.faults sink.old))
        (ports_of (S.left source.new) (S.faults source.new) (K.held sink.new) (K.faults sink.new)) }
    ensures unread { asked ≡ None → source.new ≡ source.old }
{
    match asked {
        Some(asked) => answer::<P, S, K>(alloc, asked, source, sink),
        None => {
            print_line(sink, constant_line(Ending::Usage));
            Ending::Usage
        }
    }
}

/// All that the program does. What is written, and the status, are a function of the word and of the
/// bytes that the source gives (`told`). `ends` says the same by the ways in which it may end. The other
/// clauses say of each status where it comes from, and where it comes.
pub fn headroom_top<P: Planner, S: Source, K: Sink>(
    alloc: Global,
    words: &[String],
    mut source: S,
    mut sink: K,
) -> HeadroomEnd<S, K>
    // Unless a port fails or memory runs out, in which case nothing is written.
    ensures told { (asked : AnAsked) (bytes : List ℕ)
        → asked_of (map (λ w. string_bytes w) words.now) ≡ Some asked
        → TellsFew bytes (S.left source)
        → NoFault (S.faults source) (S.faults result.source)
        → NoFault (K.faults sink) (K.faults result.sink)
        → (result.status ≡ 7) ⊎ TellsAll (telling_for P.text P.verdict asked bytes) result.status
        (K.held sink) (K.held result.sink) }

    ensures ends { EndsAt S.left S.faults K.held K.faults P.text P.verdict
        (asked_of (map (λ w. string_bytes w) words.now)) source sink result }

    // Each status exactly where, or only where, this holds.
    ensures room { result.status ≡ 0
        → TellsWholeAt S.left S.faults K.held K.faults P.text P.verdict 0
        (asked_of (map (λ w. string_bytes w) words.now)) source sink result }
    ensures no_room { result.status ≡ 10
        → TellsWholeAt S.left S.faults K.held K.faults P.text P.verdict 10
        (asked_of (map (λ w. string_bytes w) words.now)) source sink result }
    ensures usage { (result.status ≡ 1) ↔ (asked_of (map (λ w. string_bytes w) words.now) ≡ None) }
    ensures faulty { result.status ≡ 2 → (fault : AFault) × (line : ℕ) × TellsFault fault line
        (ports_now S.left S.faults K.held K.faults source sink)
        (ports_now S.left S.faults K.held K.faults result.source result.sink) }
    ensures no_dump { (asked : AnAsked) (bytes : List ℕ) (fault : FaultAt)
        → asked_of (map (λ w. string_bytes w) words.now) ≡ Some asked
        → TellsFew bytes (S.left source) → dump_of bytes ≡ Err fault
        → NoFault (S.faults source) (S.faults result.source)
        → (result.status ≡ 2) ⊎ (result.status ≡ 7) }
    ensures read { HasCause (result.status == 3) (S.faults source) (S.faults result.source) }
    ensures unwritten { result.status ≡ 4
        → TellsPartAt S.left S.faults K.held K.faults P.text P.verdict
        (asked_of (map (λ w. string_bytes w) words.now)) source sink result }
    ensures starved { result.status ≡ 7 → TellsNothing
        (ports_now S.left S.faults K.held K.faults source sink)
        (ports_now S.left S.faults K.held K.faults result.source result.sink) }
    ensures too_long { result.status ≡ 8 → Lost (S.left source) (S.left result.source) (limit + 1) }
    ensures too_much { (asked : AnAsked) (bytes : List ℕ)
        → asked_of (map (λ w. string_bytes w) words.now) ≡ Some asked
        → TellsMany bytes (S.left source) → NoFault (S.faults source) (S.faults result.source)
        → (result.status ≡ 8) ⊎ (result.status ≡ 7) }

    // What is handed back is what was handed in, where nothing is asked for.
    ensures unread { asked_of (map (λ w. string_bytes w) words.now) ≡ None
        → result.source ≡ source }
{
    let ending = run::<P, S, K>(alloc, read_words(words), &mut source, &mut sink);
    HeadroomEnd {
        status: number_of(ending),
        source,
        sink,
    }
}
