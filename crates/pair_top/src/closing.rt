//! The end of a pair that was never given up.
ghost use Rattle.std.specs.Prelude.{◌≡◌, [], length};
ghost use Rattle.pair_lines.specs.Answers.{summary_line};
ghost use Rattle.pair_runs.specs.Accounts.{Covers, items_in};
ghost use Rattle.program_ends.specs.declared.ending.Ending.{Ending as AnEnding};
ghost use Rattle.standby_board.specs.Pairs.{done_on_standby};
ghost use Rattle.pair_top.specs.Boards.{LeavesPair};
ghost use Rattle.pair_top.specs.Runs.{Finishes, counts_of};
ghost use Rattle.pair_top.specs.TakeOvers.{Starves};
ghost use Rattle.pair_top.specs.declared.ending.PairEnding.TheVariants.{Run};

use crate::ending::PairEnding;
use crate::opening::disk_of;
use crate::outcome::Outcome;
use crate::summing::finish;
use byte_ports::Sink;
use disk_trait::Disk;
use pair_runs::{Account, PhasesEnded};
use standby_board::{ClosedPair, Pair};
use std::alloc::Global;

/// Closes a pair behind phases that ended so, of which so many were told, and prints the summary.
pub(crate) fn closed<K: Sink, D: Disk, E: Disk>(
    alloc: Global,
    sink: &mut K,
    pair: Pair<D, E>,
    ended: PhasesEnded,
    account: Account,
    start: u64,
    phases: u64,
) -> Outcome<D, E>
    requires log { pair.primary.log ≡ items_in account.answers }
    requires covers { Covers [] (length (done_on_standby pair)) account.answers }
    requires start { start ≡ pair.primary.base.next }
    ensures ending { (how : AnEnding) × (result.ending ≡ Run how) × Finishes ended how
        (summary_line (counts_of start account.answers phases 0))
        (K.held sink.old) (K.held sink.new) (K.faults sink.old) (K.faults sink.new) }
    ensures leaves { LeavesPair D.told D.fault_count E.told E.fault_count E.moment pair
        account.answers result.primary result.standby }
    ensures disks { (result.primary ≡ pair.primary.disk)
        × (result.standby ≡ pair.standby.disk) }
    ensures account { result.account.answers ≡ account.answers }
{
    pair.holds();
    let ending = finish(alloc, sink, ended, &account, start, phases, 0);
    let ClosedPair { primary, standby } = pair.close();
    Outcome {
        ending: PairEnding::Run(ending),
        primary: disk_of(primary),
        standby: disk_of(standby),
        account,
    }
}

/// Closes a pair for which there was no memory to go on.
pub(crate) fn starved<K: Sink, D: Disk, E: Disk>(
    alloc: Global,
    sink: &mut K,
    pair: Pair<D, E>,
    account: Account,
    start: u64,
) -> Outcome<D, E>
    requires log { pair.primary.log ≡ items_in account.answers }
    requires covers { Covers [] (length (done_on_standby pair)) account.answers }
    requires start { start ≡ pair.primary.base.next }
    ensures { (how : AnEnding) × (result.ending ≡ Run how)
        × Starves D.told D.fault_count E.told E.fault_count E.moment pair
        account.answers result.account.answers how
        (K.held sink.old) (K.held sink.new) (K.faults sink.old) (K.faults sink.new)
        result.primary result.standby }
{
    closed(
        alloc,
        sink,
        pair,
        PhasesEnded::OutOfMemory,
        account,
        start,
        0,
    )
}
