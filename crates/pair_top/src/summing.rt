//! The last line of a pair's run.
ghost use Rattle.std.specs.Prelude.{◌≡◌, ◌<◌, ◌^◌, ◌+◌, ◌-◌, length};
ghost use Rattle.bbs_board.specs.Doubts.{doubts_in};
ghost use Rattle.pair_lines.specs.Answers.{summary_line};
ghost use Rattle.pair_runs.specs.Accounts.{items_in};
ghost use Rattle.pair_top.specs.Runs.{Finishes, Sums, counts_of, ending_for, is_doubt};

use bbs_model::Item;
use byte_ports::Sink;
use pair_lines::{PairSummary, summary_text};
use pair_runs::{Account, PhasesEnded};
use program_ends::{Ending, written};
use std::alloc::Global;

fn is_doubt(item: &Item) -> bool
    ensures { result ≡ is_doubt item.now }
{
    matches!(item, Item::Doubt(..))
}

/// How many of these items are doubts.
#[tactic(auto, using(crate::proofs::Doubts::count_is))]
fn doubts_in(items: &[Item]) -> usize
    ensures { result ≡ doubts_in items.now }
{
    items.iter().filter(|item| is_doubt(item)).count()
}

/// The counts of a run behind so many transitions, of which so many phases ran.
#[tactic(auto, using(crate::proofs::Doubts::few_doubts))]
fn counts_of(account: &Account, start: u64, phases: u64, takeover: u64) -> PairSummary
    requires fits { start + (length (items_in account.now.answers)
        - doubts_in (items_in account.now.answers)) < 2 ^ 64 }
    ensures { result ≡ counts_of start account.now.answers phases takeover }
{
    let log = account.log();
    let doubts = doubts_in(log);
    let done = log.len() - doubts;
    PairSummary {
        acknowledged: account.acknowledged(),
        doubts: doubts as u64,
        next: start + done as u64,
        phases,
        takeover,
    }
}

/// How the program ends whose phases ended so.
fn ending_for(ended: PhasesEnded) -> Ending
    ensures { result ≡ ending_for ended }
{
    match ended {
        PhasesEnded::Done => Ending::Done,
        PhasesEnded::Doubt => Ending::Doubt,
        PhasesEnded::Unwritten => Ending::Unwritten,
        PhasesEnded::OutOfMemory => Ending::OutOfMemory,
    }
}

/// Prints the summary, and ends so, unless the sink fails or memory runs out.
fn sum<K: Sink>(alloc: Global, sink: &mut K, ending: Ending, summary: PairSummary) -> Ending
    ensures { Sums ending result (summary_line summary)
        (K.held sink.old) (K.held sink.new) (K.faults sink.old) (K.faults sink.new) }
{
    match summary_text(alloc, summary) {
        Ok(text) => {
            if written(sink, &text) {
                ending
            } else {
                Ending::Unwritten
            }
        }
        Err(_) => Ending::OutOfMemory,
    }
}

/// Prints the summary behind phases that ended so, if all that ran were told.
pub(crate) fn finish<K: Sink>(
    alloc: Global,
    sink: &mut K,
    ended: PhasesEnded,
    account: &Account,
    start: u64,
    phases: u64,
    takeover: u64,
) -> Ending
    requires fits { start + (length (items_in account.now.answers)
        - doubts_in (items_in account.now.answers)) < 2 ^ 64 }
    ensures { Finishes ended result
        (summary_line (counts_of start account.now.answers phases takeover))
        (K.held sink.old) (K.held sink.new) (K.faults sink.old) (K.faults sink.new) }
{
    match ended {
        PhasesEnded::Done | PhasesEnded::Doubt => {
            let summary = counts_of(account, start, phases, takeover);
            sum(alloc, sink, ending_for(ended), summary)
        }
        PhasesEnded::Unwritten | PhasesEnded::OutOfMemory => ending_for(ended),
    }
}
