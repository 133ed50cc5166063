//! The whole of what the program does, over a disk in memory, which tells its past at every moment.
ghost use Rattle.std.specs.Prelude.{◌≡◌, ◌⊎◌, ◌+◌, ◌==◌, ◌↔◌, true, None, Some, Bool, ℕ, map, string_bytes};
ghost use Rattle.byte_ports.specs.Cause.{HasCause, Rose};
ghost use Rattle.byte_ports.specs.Content.{Lost};
ghost use Rattle.disk_trait.specs.Memory.{memory_past, faults_of};
ghost use Rattle.disk_trait.specs.Past.{Image};
ghost use Rattle.disk_trait.specs.Steps.{Goes};
ghost use Rattle.disk_trait.specs.Shows.{Shows};
ghost use Rattle.bbs_journal.specs.Preparing.{FindsBytes};
ghost use Rattle.bbs_journal.specs.declared.load_fault.LoadFault.{LoadFault as Why};
ghost use Rattle.program_ends.specs.Ending.{script_line};
ghost use Rattle.program_ends.specs.Opening.{is_before_board};
ghost use Rattle.program_ends.specs.Ports.{PrintsTo};
ghost use Rattle.program_ends.specs.Reading.{TellsTooMuch, limit};
ghost use Rattle.program_tools.specs.Still.{IsRefusedFor, IsStopped, MeetsObstacle, ReadsFault, ReadsWell};
ghost use Rattle.program_tools.specs.Words.{asked_of, asks_for_run, asks_for_source};
ghost use Rattle.program_tools.specs.declared.words.Asked.TheVariants as wanted;
ghost use Rattle.scenario_reader.specs.declared.fault.ScriptFault.{ScriptFault as AFault};
ghost use Rattle.diego_engine.specs.InMemory.{EndsInMemoryAt, RunsWholeInMemoryAt};
ghost use Rattle.diego_engine.specs.Top.{MeetsAll, MeetsNothing, NoFault, ReachesOpening, TellsFault};

use crate::{TopEnd, diego_top};
use byte_ports::{Gate, Sink, Source};
use disk_trait::MemoryDisk;
use std::alloc::Global;
use std::sync::Wait;
use std::thread::Threads;

/// The same as `diego_top`, with the sharper promise for a disk that never falls silent: what is opened,
/// refused or done follows from what the disk held when it was handed in, and nothing is asked of its end.
pub fn diego_top_in_memory<R: Threads + Wait + Sync, S: Source, K: Sink, G: Gate + Sync>(
    rt: &R,
    alloc: Global,
    words: &[String],
    source: S,
    sink: K,
    disk: MemoryDisk,
    gate: &G,
) -> TopEnd<S, K, MemoryDisk>
    ensures ends { EndsInMemoryAt S.left K.held K.faults
        (asked_of (map (λ w. string_bytes w) words.now)) source sink disk result }

    // Each status exactly where, or only where, this holds.
    ensures usage { (result.status ≡ 1) ↔ (asked_of (map (λ w. string_bytes w) words.now) ≡ None) }
    ensures script { result.status ≡ 2 → (fault : AFault)
        × ReadsFault (asked_of (map (λ w. string_bytes w) words.now)) fault
        (S.left source) (S.left result.source)
        × (whole : Bool) × PrintsTo whole (script_line fault)
        (K.held sink) (K.held result.sink) (K.faults sink) (K.faults result.sink) }
    ensures no_script { (fault : AFault)
        → TellsFault (asked_of (map (λ w. string_bytes w) words.now)) fault (S.left source)
        → NoFault (S.faults source) (S.faults result.source)
        → (result.status ≡ 2) ⊎ (result.status ≡ 7) }
    ensures read { HasCause (result.status == 3) (S.faults source) (S.faults result.source) }
    ensures unwritten { result.status ≡ 4 → Rose (K.faults sink) (K.faults result.sink) }
    ensures unstored { result.status ≡ 5 → Rose (faults_of disk) (faults_of result.disk) }
    ensures reached { result.status ≡ 6
        → ReachesOpening (asked_of (map (λ w. string_bytes w) words.now))
        (S.left source) (S.left result.source) }
    ensures refused { result.status ≡ 6 → (why : Why)
        × (faults_of result.disk ≡ faults_of disk)
        × ((image : Image) → Shows (Some (memory_past disk)) image
        → IsRefusedFor (asked_of (map (λ w. string_bytes w) words.now)) why image) }
    ensures too_long { result.status ≡ 8 → Lost (S.left source) (S.left result.source) (limit + 1) }
    ensures exists { result.status ≡ 9
        → (asked_of (map (λ w. string_bytes w) words.now) ≡ Some wanted.Prepare)
        × (faults_of result.disk ≡ faults_of disk)
        × Goes (Some (memory_past disk)) (Some (memory_past result.disk)) FindsBytes }
    ensures no_board { MeetsNothing (asked_of (map (λ w. string_bytes w) words.now))
        (S.left source) (Some (memory_past disk))
        → NoFault (S.faults source) (S.faults result.source)
        → NoFault (faults_of disk) (faults_of result.disk)
        → (result.status ≡ 6) ⊎ (result.status ≡ 7) }
    ensures too_much { asks_for_source (asked_of (map (λ w. string_bytes w) words.now)) ≡ true
        → TellsTooMuch (S.left source)
        → NoFault (S.faults source) (S.faults result.source)
        → (result.status ≡ 8) ⊎ (result.status ≡ 7) }
    ensures stopped { (status : ℕ)
        → MeetsObstacle (asked_of (map (λ w. string_bytes w) words.now)) status
        (S.left source) (Some (memory_past disk))
        → ReadsWell (asked_of (map (λ w. string_bytes w) words.now))
        (S.faults source) (S.faults result.source)
        → NoFault (faults_of disk) (faults_of result.disk)
        → IsStopped (asked_of (map (λ w. string_bytes w) words.now)) status result.status }
    ensures untouched { is_before_board result.status ≡ true
        → (Some (memory_past result.disk) ≡ Some (memory_past disk))
        × (faults_of result.disk ≡ faults_of disk) }

    // A run that ends with 0 read a scenario, opened the board of the disk, and ran every phase on it: the
    // answers, the reports, the log and the disk are those of these phases, and the whole text of them was
    // written.
    ensures done { result.status ≡ 0
        → asks_for_run (asked_of (map (λ w. string_bytes w) words.now)) ≡ true
        → RunsWholeInMemoryAt S.left K.held K.faults
        (asked_of (map (λ w. string_bytes w) words.now)) source sink disk result }

    // With a scenario and a board, or lock commands and a lock journal, and without a fault, all is done
    // unless memory runs out.
    ensures complete { MeetsAll (asked_of (map (λ w. string_bytes w) words.now))
        (S.left source) (Some (memory_past disk))
        → NoFault (S.faults source) (S.faults result.source) → NoFault (K.faults sink) (K.faults result.sink)
        → NoFault (faults_of disk) (faults_of result.disk)
        → (result.status ≡ 0) ⊎ (result.status ≡ 7) }
{
    diego_top(rt, alloc, words, source, sink, disk, gate)
}
