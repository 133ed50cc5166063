//! The whole of what the program does.
ghost use Rattle.std.specs.Prelude.{◌≡◌, ◌⊎◌, ◌+◌, ◌==◌, ◌↔◌, [], true, false, None, Some, Bool, IsTrue, List, ℕ, map, string_bytes};
ghost use Rattle.byte_ports.specs.Cause.{HasCause, Rose};
ghost use Rattle.byte_ports.specs.Content.{Lost};
ghost use Rattle.disk_trait.specs.Past.{Image};
ghost use Rattle.disk_trait.specs.Steps.{Goes};
ghost use Rattle.bbs_board.specs.Doubts.{doubts_in, RoseForEach};
ghost use Rattle.disk_trait.specs.Shows.{Shows};
ghost use Rattle.bbs_journal.specs.Preparing.{FindsBytes};
ghost use Rattle.bbs_journal.specs.declared.load_fault.LoadFault.{LoadFault as Why};
ghost use Rattle.program_ends.specs.Ending.{script_line, status_of};
ghost use Rattle.program_ends.specs.Opening.{is_before_board};
ghost use Rattle.program_ends.specs.Ports.{IsTold, PrintsTo};
ghost use Rattle.program_ends.specs.Reading.{TellsTooMuch, limit};
ghost use Rattle.program_ends.specs.declared.ending.Ending.{Ending as AnEnding};
ghost use Rattle.program_tools.specs.Still.{IsRefusedFor, IsStopped, MeetsObstacle, ReadsFault, ReadsWell};
ghost use Rattle.program_tools.specs.Words.{asked_of, asks_for_locks, asks_for_number, asks_for_run, asks_for_source, number_to_run};
ghost use Rattle.program_tools.specs.declared.words.Asked.TheVariants as wanted;
ghost use Rattle.diego_engine.specs.Headline.{Headline};
ghost use Rattle.diego_engine.specs.Serial.{RunsSeriallyAt};
ghost use Rattle.diego_engine.specs.Top.{EndsAt, MeetsAll, MeetsNothing, NoFault, ReachesOpening, RunsWholeAt, TellsFault, TellsWithoutFault, ports_now, run_of};
ghost use Rattle.large_runs.specs.Large.{LargeEnds};
ghost use Rattle.program_run.specs.Runs.{RunEnds};
ghost use Rattle.scenario_reader.specs.declared.fault.ScriptFault.{ScriptFault as AFault};

use byte_ports::{Gate, Sink, Source};
use disk_trait::Disk;
use large_runs::run_large;
use program_ends::{TopEnd, number_of};
use program_run::{Ended, run};
use program_tools::{Asked, read_words, still_top};
use route_runs::RouteTeller;
use run_function::runs_are_alone;
use run_theorem::played_runs_are_faithful;
use scenario_player::{Teller, WholeTeller};
use std::alloc::Global;
use std::sync::Wait;
use std::thread::Threads;

fn asks_for_whole(alloc: Global, words: &[String]) -> bool
    ensures { IsTrue result ↔ (asked_of (map (λ w. string_bytes w) words.now) ≡ Some wanted.Run) }
{
    matches!(read_words(alloc, words), Some(Asked::Run))
}

fn asks_for_routes(alloc: Global, words: &[String]) -> bool
    ensures { IsTrue result ↔
        (asked_of (map (λ w. string_bytes w) words.now) ≡ Some wanted.Routes) }
{
    matches!(read_words(alloc, words), Some(Asked::Routes))
}

fn number_to_run(alloc: Global, words: &[String]) -> Option<u32>
    ensures { result ≡ number_to_run (asked_of (map (λ w. string_bytes w) words.now)) }
{
    match read_words(alloc, words) {
        Some(Asked::Large(number)) => Some(number),
        _ => None,
    }
}

fn top_end<S, K, D>(alloc: Global, ended: Ended, source: S, sink: K, disk: D) -> TopEnd<S, K, D>
    ensures status { result.status ≡ status_of ended.ending }
    ensures ports { (result.source ≡ source) × (result.sink ≡ sink) × (result.disk ≡ disk) }
    ensures lists { (result.log ≡ ended.log) × (result.marks ≡ ended.marks)
        × (result.answers ≡ ended.answers) × (result.reports ≡ ended.reports) }
    ensures locks { result.locks.items ≡ [] }
{
    let Ended {
        ending,
        log,
        marks,
        answers,
        reports,
    } = ended;
    TopEnd {
        status: number_of(ending),
        source,
        sink,
        disk,
        log,
        marks,
        answers,
        reports,
        locks: Vec::new(alloc),
    }
}

/// Runs a scenario, with its phases told in the words of `T`.
fn run_top<
    T: Teller + Drop,
    R: Threads + Wait + Sync,
    S: Source,
    K: Sink,
    D: Disk + Drop + Send,
    G: Gate + Sync,
>(rt: &R, alloc: Global, mut source: S, mut sink: K, disk: D, gate: &G) -> TopEnd<S, K, D>
    ensures ends { (how : AnEnding) × (result.status ≡ status_of how)
        × RunEnds D.told D.fault_count D.moment T.wording how (run_of how result)
        (S.left source) (S.left result.source)
        (ports_now K.held K.faults D.told D.fault_count D.moment sink disk)
        (ports_now K.held K.faults D.told D.fault_count D.moment result.sink result.disk) }
    ensures locks { result.locks.items ≡ [] }
    ensures read { HasCause (result.status == 3) (S.faults source) (S.faults result.source) }
    ensures unopened { is_before_board result.status ≡ true → result.disk ≡ disk }
{
    let (ended, disk) = run::<T, R, S, K, D, G>(rt, alloc, &mut source, &mut sink, disk, gate);
    top_end(alloc, ended, source, sink, disk)
}

/// Runs the scenario of a number in memory.
fn large_top<R: Threads + Wait + Sync, S: Source, K: Sink, D: Disk, G: Gate + Sync>(
    rt: &R,
    alloc: Global,
    number: u32,
    source: S,
    mut sink: K,
    disk: D,
    gate: &G,
) -> TopEnd<S, K, D>
    ensures ends { (how : AnEnding) × (result.status ≡ status_of how)
        × LargeEnds number how (run_of how result)
        (K.held sink) (K.held result.sink) (K.faults sink) (K.faults result.sink) }
    ensures locks { result.locks.items ≡ [] }
    ensures read { (result.status == 3) ≡ false }
    ensures apart { (result.source ≡ source) × (result.disk ≡ disk) }
{
    let ended = run_large(rt, alloc, number, &mut sink, gate);
    top_end(alloc, ended, source, sink, disk)
}

fn whole_top<R: Threads + Wait + Sync, S: Source, K: Sink, D: Disk + Drop + Send, G: Gate + Sync>(
    rt: &R,
    alloc: Global,
    words: &[String],
    source: S,
    sink: K,
    disk: D,
    gate: &G,
) -> TopEnd<S, K, D>
    ensures ends { EndsAt S.left K.held K.faults D.told D.fault_count D.moment
        (asked_of (map (λ w. string_bytes w) words.now)) source sink disk result }
    ensures locks { asks_for_locks (asked_of (map (λ w. string_bytes w) words.now)) ≡ false
        → result.locks.items ≡ [] }
    ensures read { HasCause (result.status == 3) (S.faults source) (S.faults result.source) }
    ensures unread { asks_for_source (asked_of (map (λ w. string_bytes w) words.now)) ≡ false
        → result.source ≡ source }
    ensures unopened { is_before_board result.status ≡ true → result.disk ≡ disk }
    ensures apart { asks_for_number (asked_of (map (λ w. string_bytes w) words.now)) ≡ true
        → result.disk ≡ disk }
{
    if asks_for_whole(alloc, words) {
        return run_top::<WholeTeller, R, S, K, D, G>(rt, alloc, source, sink, disk, gate);
    }
    if asks_for_routes(alloc, words) {
        return run_top::<RouteTeller, R, S, K, D, G>(rt, alloc, source, sink, disk, gate);
    }
    if let Some(number) = number_to_run(alloc, words) {
        return large_top(rt, alloc, number, source, sink, disk, gate);
    }
    still_top(alloc, words, source, sink, disk)
}

/// All that the program does. `headline` is what the board promises, whatever the status; what is printed
/// and done to the disk is told by `ends`, and the other clauses say of each status where it comes from.
/// The clauses on content speak of a disk that tells its past; one that falls silent on the way has
/// only its causes and its safety.
pub fn diego_top<
    R: Threads + Wait + Sync,
    S: Source,
    K: Sink,
    D: Disk + Drop + Send,
    G: Gate + Sync,
>(rt: &R, alloc: Global, words: &[String], source: S, sink: K, disk: D, gate: &G) -> TopEnd<S, K, D>
    // What was acknowledged, a stop leaves; nothing else shows but a doubt; and each doubt has a fault of
    // the disk for its cause.
    ensures headline { asks_for_run (asked_of (map (λ w. string_bytes w) words.now)) ≡ true
        → (how : AnEnding) × (result.status ≡ status_of how)
        × Headline how result.log.items result.marks.items result.answers.items result.reports.items
        (S.left source) (S.left result.source)
        (D.told disk) (D.told result.disk) (D.fault_count disk) (D.fault_count result.disk) }
    ensures doubts { RoseForEach (doubts_in result.log.items)
        (D.fault_count disk) (D.fault_count result.disk) }

    ensures ends { EndsAt S.left K.held K.faults D.told D.fault_count D.moment
        (asked_of (map (λ w. string_bytes w) words.now)) source sink disk result }
    ensures locks { asks_for_locks (asked_of (map (λ w. string_bytes w) words.now)) ≡ false
        → result.locks.items ≡ [] }

    // Each status exactly where, or only where, this holds.
    ensures usage { (result.status ≡ 1) ↔ (asked_of (map (λ w. string_bytes w) words.now) ≡ None) }
    ensures script { result.status ≡ 2 → (fault : AFault)
        × ReadsFault (asked_of (map (λ w. string_bytes w) words.now)) fault
        (S.left source) (S.left result.source)
        × (whole : Bool) × PrintsTo whole (script_line fault)
        (K.held sink) (K.held result.sink) (K.faults sink) (K.faults result.sink) }
    ensures no_script { (fault : AFault)
        → TellsFault (asked_of (map (λ w. string_bytes w) words.now)) fault (S.left source)
        → NoFault (S.faults source) (S.faults result.source)
        → (result.status ≡ 2) ⊎ (result.status ≡ 7) }
    ensures read { HasCause (result.status == 3) (S.faults source) (S.faults result.source) }
    ensures unwritten { result.status ≡ 4 → Rose (K.faults sink) (K.faults result.sink) }
    ensures unstored { result.status ≡ 5 → Rose (D.fault_count disk) (D.fault_count result.disk) }
    ensures reached { result.status ≡ 6
        → ReachesOpening (asked_of (map (λ w. string_bytes w) words.now))
        (S.left source) (S.left result.source) }
    ensures refused { result.status ≡ 6 → (why : Why)
        × (D.fault_count result.disk ≡ D.fault_count disk)
        × ((image : Image) → Shows (D.told disk) image → IsTold (D.told result.disk)
        → IsRefusedFor (asked_of (map (λ w. string_bytes w) words.now)) why image) }
    ensures too_long { result.status ≡ 8 → Lost (S.left source) (S.left result.source) (limit + 1) }
    ensures exists { result.status ≡ 9
        → (asked_of (map (λ w. string_bytes w) words.now) ≡ Some wanted.Prepare)
        × (D.fault_count result.disk ≡ D.fault_count disk)
        × Goes (D.told disk) (D.told result.disk) FindsBytes }
    ensures no_board { MeetsNothing (asked_of (map (λ w. string_bytes w) words.now))
        (S.left source) (D.told disk)
        → NoFault (S.faults source) (S.faults result.source)
        → TellsWithoutFault (D.told result.disk) (D.fault_count disk) (D.fault_count result.disk)
        → (result.status ≡ 6) ⊎ (result.status ≡ 7) }
    ensures too_much { asks_for_source (asked_of (map (λ w. string_bytes w) words.now)) ≡ true
        → TellsTooMuch (S.left source)
        → NoFault (S.faults source) (S.faults result.source)
        → (result.status ≡ 8) ⊎ (result.status ≡ 7) }
    ensures stopped { (status : ℕ)
        → MeetsObstacle (asked_of (map (λ w. string_bytes w) words.now)) status
        (S.left source) (D.told disk)
        → ReadsWell (asked_of (map (λ w. string_bytes w) words.now))
        (S.faults source) (S.faults result.source)
        → TellsWithoutFault (D.told result.disk) (D.fault_count disk) (D.fault_count result.disk)
        → IsStopped (asked_of (map (λ w. string_bytes w) words.now)) status result.status }
    ensures untouched { is_before_board result.status ≡ true
        → (D.told result.disk ≡ D.told disk) × (D.fault_count result.disk ≡ D.fault_count disk) }

    // What is handed back is what was handed in: the source, where nothing is run, and the disk, where it
    // ends before the opening.
    ensures unread { asks_for_source (asked_of (map (λ w. string_bytes w) words.now)) ≡ false
        → result.source ≡ source }
    ensures unopened { is_before_board result.status ≡ true → result.disk ≡ disk }

    // A run that ends with 0 read a scenario, opened a board, and ran every phase on it: the answers, the
    // reports, the log and the disk are those of these phases, and the whole text of them was written.
    ensures done { result.status ≡ 0
        → asks_for_run (asked_of (map (λ w. string_bytes w) words.now)) ≡ true
        → RunsWholeAt S.left K.held K.faults D.told D.fault_count D.moment
        (asked_of (map (λ w. string_bytes w) words.now)) source sink disk result }

    // Where each phase has one actor or a round alone, all of that is a function of the scenario and the
    // board: the answers, the reports, the log, the text, and what the disk reads afterwards.
    ensures serial { result.status ≡ 0
        → asks_for_run (asked_of (map (λ w. string_bytes w) words.now)) ≡ true
        → RunsSeriallyAt S.left K.held K.faults D.told D.fault_count D.moment
        (asked_of (map (λ w. string_bytes w) words.now)) source sink disk result }

    // A scenario that is made of a number is printed, or runs on a board in memory, which begins without
    // rows; what it does there is what any run does. The disk isn't touched.
    ensures large { (number : ℕ)
        → asked_of (map (λ w. string_bytes w) words.now) ≡ Some (wanted.Large number)
        → (how : AnEnding) × (result.status ≡ status_of how)
        × LargeEnds number how (run_of how result)
        (K.held sink) (K.held result.sink) (K.faults sink) (K.faults result.sink) }
    ensures apart { asks_for_number (asked_of (map (λ w. string_bytes w) words.now)) ≡ true
        → result.disk ≡ disk }
    ensures complete_number { asks_for_number (asked_of (map (λ w. string_bytes w) words.now))
        ≡ true → NoFault (K.faults sink) (K.faults result.sink)
        → (result.status ≡ 0) ⊎ (result.status ≡ 7) }

    // With a scenario and a board, or lock commands and a lock journal, and without a fault, all is done
    // unless memory runs out.
    ensures complete { MeetsAll (asked_of (map (λ w. string_bytes w) words.now))
        (S.left source) (D.told disk)
        → NoFault (S.faults source) (S.faults result.source) → NoFault (K.faults sink) (K.faults result.sink)
        → TellsWithoutFault (D.told result.disk) (D.fault_count disk) (D.fault_count result.disk)
        → (result.status ≡ 0) ⊎ (result.status ≡ 7) }
{
    played_runs_are_faithful::<D>();
    runs_are_alone::<D>();
    whole_top(rt, alloc, words, source, sink, disk, gate)
}
