//! The top call of the words that ask for no run.
ghost use Rattle.std.specs.Prelude.{◌≡◌, ◌⊎◌, ◌↔◌, ◌==◌, ◌+◌, Bool, ℕ, true, false, None, Some, [], map, string_bytes};
ghost use Rattle.byte_ports.specs.Cause.{HasCause, Rose};
ghost use Rattle.byte_ports.specs.Content.{Lost};
ghost use Rattle.disk_trait.specs.Past.{Image};
ghost use Rattle.disk_trait.specs.Shows.{Shows};
ghost use Rattle.disk_trait.specs.Steps.{Goes};
ghost use Rattle.bbs_journal.specs.Preparing.{FindsBytes};
ghost use Rattle.bbs_journal.specs.declared.load_fault.LoadFault.{LoadFault as Why};
ghost use Rattle.program_ends.specs.Ending.{script_line, status_of};
ghost use Rattle.program_ends.specs.Opening.{is_before_board};
ghost use Rattle.program_ends.specs.Ports.{IsTold, PrintsTo, ports_of};
ghost use Rattle.program_ends.specs.Reading.{limit};
ghost use Rattle.program_ends.specs.declared.ending.Ending.{Ending as AnEnding};
ghost use Rattle.lock_runs.specs.Runs.{LocksEnd};
ghost use Rattle.scenario_reader.specs.declared.fault.ScriptFault.{ScriptFault as AFault};
ghost use Rattle.program_tools.specs.Still.{AskedEnds, StillEnds, IsRefusedFor, ReadsFault, ReadsWell, MeetsStill, MeetsObstacle, IsStopped};
ghost use Rattle.program_tools.specs.Words.{asked_of, asks_for_locks, asks_for_number, asks_to_play};
ghost use Rattle.program_tools.specs.declared.words.Asked.TheVariants as wanted;

use crate::generating::print_scenario;
use crate::preparing::prepare_board;
use crate::showing::{show_check, show_records};
use crate::words::{Asked, read_words};
use byte_ports::{Sink, Source};
use disk_trait::Disk;
use lock_runs::{LocksEnded, run_locks};
use program_ends::{Ending, TopEnd, ended_early, number_of};
use std::alloc::Global;

/// Does what asks nothing of the source, and gives the disk back.
fn still<K: Sink, D: Disk>(
    alloc: Global,
    asked: Option<Asked>,
    sink: &mut K,
    mut disk: D,
) -> (Ending, D)
    requires run { asks_to_play asked ≡ false }
    requires locks { asks_for_locks asked ≡ false }
    ensures untouched { asked ≡ None → result.1 ≡ disk }
    ensures apart { asks_for_number asked ≡ true → result.1 ≡ disk }
    ensures ends { StillEnds result.0 asked
        (ports_of (K.held sink.old) (K.faults sink.old)
        (D.told disk) (D.fault_count disk) (D.moment disk))
        (ports_of (K.held sink.new) (K.faults sink.new)
        (D.told result.1) (D.fault_count result.1) (D.moment result.1)) }
{
    match asked {
        Some(Asked::Prepare) => {
            let ending = prepare_board(sink, &mut disk);
            (ending, disk)
        }
        Some(Asked::Records) => show_records(alloc, sink, disk),
        Some(Asked::Check) => show_check(alloc, sink, disk),
        Some(Asked::Generate(number)) => print_scenario(alloc, number, sink, disk),
        _ => (ended_early(sink, Ending::Usage), disk),
    }
}

/// What the program hands back that played nothing on a board.
fn top_end<S, K, D>(
    alloc: Global,
    ended: LocksEnded,
    source: S,
    sink: K,
    disk: D,
) -> TopEnd<S, K, D>
    ensures status { result.status ≡ status_of ended.ending }
    ensures ports { (result.source ≡ source) × (result.sink ≡ sink) × (result.disk ≡ disk) }
    ensures locks { (result.locks ≡ ended.locks) × (result.marks ≡ ended.marks) }
    ensures lists { (result.log.items ≡ []) × (result.answers.items ≡ [])
        × (result.reports.items ≡ []) }
{
    let LocksEnded {
        ending,
        locks,
        marks,
    } = ended;
    TopEnd {
        status: number_of(ending),
        source,
        sink,
        disk,
        log: Vec::new(alloc),
        marks,
        answers: Vec::new(alloc),
        reports: Vec::new(alloc),
        locks,
    }
}

/// Runs the lock commands that the source gives.
fn locks_top<S: Source, K: Sink, D: Disk>(
    alloc: Global,
    mut source: S,
    mut sink: K,
    disk: D,
) -> TopEnd<S, K, D>
    ensures ends { (how : AnEnding) × (result.status ≡ status_of how)
        × LocksEnd how result.locks.items result.marks.items
        (S.left source) (S.left result.source)
        (ports_of (K.held sink) (K.faults sink) (D.told disk) (D.fault_count disk) (D.moment disk))
        (ports_of (K.held result.sink) (K.faults result.sink)
        (D.told result.disk) (D.fault_count result.disk) (D.moment result.disk)) }
    ensures lists { (result.log.items ≡ []) × (result.answers.items ≡ [])
        × (result.reports.items ≡ []) }
    ensures read { HasCause (result.status == 3) (S.faults source) (S.faults result.source) }
    ensures unopened { is_before_board result.status ≡ true → result.disk ≡ disk }
{
    let (ended, disk) = run_locks(alloc, &mut source, &mut sink, disk);
    top_end(alloc, ended, source, sink, disk)
}

/// Does what asks nothing of the source.
fn tools_top<S: Source, K: Sink, D: Disk>(
    alloc: Global,
    asked: Option<Asked>,
    source: S,
    mut sink: K,
    disk: D,
) -> TopEnd<S, K, D>
    requires run { asks_to_play asked ≡ false }
    requires locks { asks_for_locks asked ≡ false }
    ensures ends { (how : AnEnding) × (result.status ≡ status_of how)
        × StillEnds how asked
        (ports_of (K.held sink) (K.faults sink) (D.told disk) (D.fault_count disk) (D.moment disk))
        (ports_of (K.held result.sink) (K.faults result.sink)
        (D.told result.disk) (D.fault_count result.disk) (D.moment result.disk)) }
    ensures source { result.source ≡ source }
    ensures lists { (result.log.items ≡ []) × (result.answers.items ≡ [])
        × (result.reports.items ≡ []) }
    ensures locks { (result.locks.items ≡ []) × (result.marks.items ≡ []) }
    ensures untouched { asked ≡ None → result.disk ≡ disk }
    ensures apart { asks_for_number asked ≡ true → result.disk ≡ disk }
{
    let (ending, disk) = still(alloc, asked, &mut sink, disk);
    let ended = LocksEnded {
        ending,
        locks: Vec::new(alloc),
        marks: Vec::new(alloc),
    };
    top_end(alloc, ended, source, sink, disk)
}

/// Does what was asked for, where that is no run.
fn asked_top<S: Source, K: Sink, D: Disk>(
    alloc: Global,
    asked: Option<Asked>,
    source: S,
    sink: K,
    disk: D,
) -> TopEnd<S, K, D>
    requires { asks_to_play asked ≡ false }
    ensures ends { (how : AnEnding) × (result.status ≡ status_of how)
        × AskedEnds how asked result.locks.items result.marks.items
        (S.left source) (S.left result.source)
        (ports_of (K.held sink) (K.faults sink) (D.told disk) (D.fault_count disk) (D.moment disk))
        (ports_of (K.held result.sink) (K.faults result.sink)
        (D.told result.disk) (D.fault_count result.disk) (D.moment result.disk)) }
    ensures source { asks_for_locks asked ≡ false → result.source ≡ source }
    ensures lists { (result.log.items ≡ []) × (result.answers.items ≡ [])
        × (result.reports.items ≡ []) }
    ensures locks { asks_for_locks asked ≡ false
        → (result.locks.items ≡ []) × (result.marks.items ≡ []) }
    ensures read { HasCause (result.status == 3) (S.faults source) (S.faults result.source) }
    ensures unopened { is_before_board result.status ≡ true → result.disk ≡ disk }
    ensures apart { asks_for_number asked ≡ true → result.disk ≡ disk }
{
    if matches!(asked, Some(Asked::Locks)) {
        return locks_top(alloc, source, sink, disk);
    }
    tools_top(alloc, asked, source, sink, disk)
}

/// Does what the words ask for, where they don't ask for a run. It waits for nobody. `records`, `check`,
/// `generate` and a `prepare` that finds bytes change no byte of the disk; `locks` alone takes anything from
/// the source.
pub fn still_top<S: Source, K: Sink, D: Disk>(
    alloc: Global,
    words: &[String],
    source: S,
    sink: K,
    disk: D,
) -> TopEnd<S, K, D>
    requires { asks_to_play (asked_of (map (λ w. string_bytes w) words.now)) ≡ false }
    ensures source { asks_for_locks (asked_of (map (λ w. string_bytes w) words.now)) ≡ false
        → result.source ≡ source }
    ensures lists { (result.log.items ≡ []) × (result.answers.items ≡ [])
        × (result.reports.items ≡ []) }
    ensures locks { asks_for_locks (asked_of (map (λ w. string_bytes w) words.now)) ≡ false
        → (result.locks.items ≡ []) × (result.marks.items ≡ []) }
    ensures unopened { is_before_board result.status ≡ true → result.disk ≡ disk }
    ensures apart { asks_for_number (asked_of (map (λ w. string_bytes w) words.now)) ≡ true
        → result.disk ≡ disk }

    ensures ends { (how : AnEnding) × (result.status ≡ status_of how)
        × AskedEnds how (asked_of (map (λ w. string_bytes w) words.now))
        result.locks.items result.marks.items (S.left source) (S.left result.source)
        (ports_of (K.held sink) (K.faults sink) (D.told disk) (D.fault_count disk) (D.moment disk))
        (ports_of (K.held result.sink) (K.faults result.sink)
        (D.told result.disk) (D.fault_count result.disk) (D.moment result.disk)) }

    // Each status exactly where, or only where, this holds.
    ensures usage { (result.status ≡ 1) ↔ (asked_of (map (λ w. string_bytes w) words.now) ≡ None) }
    ensures script { result.status ≡ 2 → (fault : AFault)
        × ReadsFault (asked_of (map (λ w. string_bytes w) words.now)) fault
        (S.left source) (S.left result.source)
        × (whole : Bool) × PrintsTo whole (script_line fault)
        (K.held sink) (K.held result.sink) (K.faults sink) (K.faults result.sink) }
    ensures read { HasCause (result.status == 3) (S.faults source) (S.faults result.source) }
    ensures unwritten { result.status ≡ 4 → Rose (K.faults sink) (K.faults result.sink) }
    ensures unstored { result.status ≡ 5 → Rose (D.fault_count disk) (D.fault_count result.disk) }
    ensures refused { result.status ≡ 6 → (why : Why)
        × (D.fault_count result.disk ≡ D.fault_count disk)
        × ((image : Image) → Shows (D.told disk) image → IsTold (D.told result.disk)
        → IsRefusedFor (asked_of (map (λ w. string_bytes w) words.now)) why image) }
    ensures too_long { result.status ≡ 8 → Lost (S.left source) (S.left result.source) (limit + 1) }
    ensures exists { result.status ≡ 9
        → (asked_of (map (λ w. string_bytes w) words.now) ≡ Some wanted.Prepare)
        × (D.fault_count result.disk ≡ D.fault_count disk)
        × Goes (D.told disk) (D.told result.disk) FindsBytes }

    // Where the source or the disk tells what stops the word, and doesn't fail, it has that status.
    ensures stopped { (status : ℕ)
        → MeetsObstacle (asked_of (map (λ w. string_bytes w) words.now)) status
        (S.left source) (D.told disk)
        → ReadsWell (asked_of (map (λ w. string_bytes w) words.now))
        (S.faults source) (S.faults result.source)
        → IsTold (D.told result.disk)
        → (Rose (D.fault_count disk) (D.fault_count result.disk) → ⊥)
        → IsStopped (asked_of (map (λ w. string_bytes w) words.now)) status result.status }

    // With what the word asks for, and without a fault, all is done unless memory runs out.
    ensures complete { MeetsStill (asked_of (map (λ w. string_bytes w) words.now))
        (S.left source) (D.told disk)
        → ReadsWell (asked_of (map (λ w. string_bytes w) words.now))
        (S.faults source) (S.faults result.source)
        → IsTold (D.told result.disk)
        → (Rose (K.faults sink) (K.faults result.sink) → ⊥)
        → (Rose (D.fault_count disk) (D.fault_count result.disk) → ⊥)
        → (result.status ≡ 0) ⊎ (result.status ≡ 7) }
{
    asked_top(alloc, read_words(alloc, words), source, sink, disk)
}
