//! The whole of what the program of a pair does.
ghost use Rattle.std.specs.Prelude.{◌≡◌, ◌⊎◌, ◌==◌, ◌↔◌, true, None, map, string_bytes};
ghost use Rattle.byte_ports.specs.Cause.{HasCause, Rose};
ghost use Rattle.program_ends.specs.Opening.{is_before_board};
ghost use Rattle.program_ends.specs.Ports.{IsTold};
ghost use Rattle.pair_lines.specs.Words.{AsksFor};
ghost use Rattle.pair_runs.specs.Accounts.{acknowledged_from, items_in};
ghost use Rattle.scenario_reader.specs.Facts.{IsScript};
ghost use Rattle.pair_top.specs.Endings.{status_of};
ghost use Rattle.pair_top.specs.Ends.{EndsAt};
ghost use Rattle.pair_top.specs.Top.{MeetsPair, NumberEnds, PairEnds, ScriptEnds, ports_at};

use crate::ending::{PairEnding, number_of};
use crate::lines::ended;
use crate::opening::open_pair;
use crate::outcome::{Outcome, idle};
use crate::reading::read;
use crate::running::run_on;
use bbs_model::Item;
use byte_ports::{Sink, Source};
use disk_trait::Disk;
use pair_lines::{PairAnswered, read_number};
use pair_runs::AccountLists;
use program_ends::Ending;
use scenario_lines::Script;
use standby_board::beginnings_are_reached;
use std::alloc::Global;

/// How the program ended: its status, what it was given, and what it did.
pub struct PairEnd<S, K, D, E> {
    pub status: u8,
    pub source: S,
    pub sink: K,
    pub primary: D,
    pub standby: E,
    /// The items of this run, in order: those of the primary's log, and behind a take-over those of the
    /// board that took over.
    pub log: Vec<Item>,
    /// The places in `log` of the items whose calls were answered as acknowledged.
    pub acknowledged: Vec<u64>,
    /// The calls in order, and how each ended.
    pub answers: Vec<PairAnswered>,
}

/// Runs a script on the boards that the disks hold, and gives the disks back.
fn run_script<K: Sink, D: Disk, E: Disk>(
    alloc: Global,
    script: &Script,
    k: u32,
    sink: &mut K,
    primary: D,
    standby: E,
) -> Outcome<D, E>
    requires script { IsScript script.now }
    ensures { ScriptEnds result.ending script.now k result.account.answers
        (ports_at D.told D.fault_count D.moment E.told E.fault_count E.moment
        (K.held sink.old) (K.faults sink.old) primary standby)
        (ports_at D.told D.fault_count D.moment E.told E.fault_count E.moment
        (K.held sink.new) (K.faults sink.new) result.primary result.standby) }
{
    beginnings_are_reached();
    match open_pair(alloc, sink, primary, standby) {
        Ok(pair) => {
            let start = pair.next();
            run_on(alloc, script, k, pair, start, sink)
        }
        Err((ending, primary, standby)) => idle(alloc, ending, primary, standby),
    }
}

/// Reads a script, and runs it. The source is read whole before a disk is looked at.
fn read_and_run<S: Source, K: Sink, D: Disk, E: Disk>(
    alloc: Global,
    k: u32,
    source: &mut S,
    sink: &mut K,
    primary: D,
    standby: E,
) -> Outcome<D, E>
    ensures ends { NumberEnds result.ending k result.account.answers
        (S.left source.old) (S.left source.new)
        (ports_at D.told D.fault_count D.moment E.told E.fault_count E.moment
        (K.held sink.old) (K.faults sink.old) primary standby)
        (ports_at D.told D.fault_count D.moment E.told E.fault_count E.moment
        (K.held sink.new) (K.faults sink.new) result.primary result.standby) }
    ensures read { HasCause (status_of result.ending == 3)
        (S.faults source.old) (S.faults source.new) }
    ensures untouched { is_before_board (status_of result.ending) ≡ true →
        (result.primary ≡ primary) × (result.standby ≡ standby) }
{
    match read(alloc, source) {
        Ok(script) => run_script(alloc, &script, k, sink, primary, standby),
        Err(ending) => idle(alloc, ended(alloc, sink, ending), primary, standby),
    }
}

/// What is done for these words.
fn run_words<S: Source, K: Sink, D: Disk, E: Disk>(
    alloc: Global,
    words: &[String],
    source: &mut S,
    sink: &mut K,
    primary: D,
    standby: E,
) -> Outcome<D, E>
    ensures ends { PairEnds result.ending (map (λ w. string_bytes w) words.now)
        result.account.answers (S.left source.old) (S.left source.new)
        (ports_at D.told D.fault_count D.moment E.told E.fault_count E.moment
        (K.held sink.old) (K.faults sink.old) primary standby)
        (ports_at D.told D.fault_count D.moment E.told E.fault_count E.moment
        (K.held sink.new) (K.faults sink.new) result.primary result.standby) }
    ensures read { HasCause (status_of result.ending == 3)
        (S.faults source.old) (S.faults source.new) }
    ensures untouched { is_before_board (status_of result.ending) ≡ true →
        (result.primary ≡ primary) × (result.standby ≡ standby) }
{
    match read_number(words) {
        Some(k) => read_and_run(alloc, k, source, sink, primary, standby),
        None => {
            let ending = PairEnding::Run(Ending::Usage);
            idle(alloc, ended(alloc, sink, ending), primary, standby)
        }
    }
}

/// Does all that the program of a pair does: it reads its words and then the script that the source gives,
/// opens the two boards, and runs the script on them. Before phase `k` of the script, which the words say,
/// the standby takes over.
pub fn pair_top<S: Source, K: Sink, D: Disk, E: Disk>(
    alloc: Global,
    words: &[String],
    mut source: S,
    mut sink: K,
    primary: D,
    standby: E,
) -> PairEnd<S, K, D, E>
    ensures ends { EndsAt S.left K.held K.faults D.told D.fault_count D.moment
        E.told E.fault_count E.moment (map (λ w. string_bytes w) words.now)
        source sink primary standby result }
    ensures log { result.log.items ≡ items_in result.answers.items }
    ensures acknowledged { result.acknowledged.items
        ≡ acknowledged_from 0 result.answers.items }

    // Each status exactly where, or only where, this holds.
    ensures usage { (result.status ≡ 1) ↔ AsksFor (map (λ w. string_bytes w) words.now) None }
    ensures read { HasCause (result.status == 3) (S.faults source) (S.faults result.source) }
    ensures unwritten { result.status ≡ 4 → Rose (K.faults sink) (K.faults result.sink) }
    ensures unstored { result.status ≡ 5 →
        Rose (D.fault_count primary) (D.fault_count result.primary)
        ⊎ Rose (E.fault_count standby) (E.fault_count result.standby) }
    ensures untouched { is_before_board result.status ≡ true →
        (result.primary ≡ primary) × (result.standby ≡ standby) }

    // With a script for a pair and two boards with the same rows, and without a fault, all is done unless
    // memory runs out.
    ensures complete { MeetsPair (map (λ w. string_bytes w) words.now) (S.left source)
        (D.told primary) (E.told standby)
        → IsTold (D.told result.primary) → IsTold (E.told result.standby)
        → (Rose (S.faults source) (S.faults result.source) → ⊥)
        → (Rose (K.faults sink) (K.faults result.sink) → ⊥)
        → (Rose (D.fault_count primary) (D.fault_count result.primary) → ⊥)
        → (Rose (E.fault_count standby) (E.fault_count result.standby) → ⊥)
        → (result.status ≡ 0) ⊎ (result.status ≡ 7) }
{
    let Outcome {
        ending,
        primary,
        standby,
        account,
    } = run_words(alloc, words, &mut source, &mut sink, primary, standby);
    let AccountLists {
        answers,
        log,
        acknowledged,
    } = account.into_lists();
    PairEnd {
        status: number_of(ending),
        source,
        sink,
        primary,
        standby,
        log,
        acknowledged,
        answers,
    }
}
