//! The take-over, and the phases behind it.
ghost use Rattle.std.specs.Prelude.{◌≡◌, ◌≤◌, ◌+◌, ◌^◌, [], length, None};
ghost use Rattle.pair_runs.specs.Accounts.{Covers, items_in};
ghost use Rattle.program_ends.specs.declared.ending.Ending.{Ending as AnEnding};
ghost use Rattle.standby_board.specs.Pairs.{done_on_standby};
ghost use Rattle.pair_top.specs.TakeOvers.{HandsOver, RunsAlone};
ghost use Rattle.pair_top.specs.declared.ending.PairEnding.TheVariants.{Run};

use crate::alone::Alone;
use crate::closing::starved;
use crate::ending::PairEnding;
use crate::leases::Leases;
use crate::opening::disk_of;
use crate::outcome::Outcome;
use crate::standing::Standing;
use crate::summing::finish;
use byte_ports::Sink;
use disk_trait::Disk;
use pair_runs::{Account, run_phases};
use scenario_lines::{Phase, Script};
use standby_board::Taken;
use std::alloc::Global;

/// Runs the phases behind a take-over before phase `k` on the board that took over, and closes it. Where
/// the phases weren't all told their number says nothing.
fn run_alone<K: Sink, D: Disk, E: Disk>(
    alloc: Global,
    script: &Script,
    phases: &[Phase],
    k: u32,
    taken: Taken<D, E>,
    fence: u64,
    sink: &mut K,
    mut account: Account,
    start: u64,
) -> Outcome<D, E>
    requires few { length script.now.actors ≤ 256 }
    requires later { 1 ≤ k }
    requires room { k + length phases.now ≤ 2 ^ 64 }
    requires shown { taken.board.fence.greatest ≤ fence }
    requires log { taken.board.board.log ≡ items_in account.answers }
    requires start { start ≡ taken.board.board.base.next }
    ensures runs { (how : AnEnding) × (result.ending ≡ Run how)
        × RunsAlone E.told E.fault_count script.now phases.now k start taken.board
        account.answers result.account.answers how
        (K.held sink.old) (K.held sink.new) (K.faults sink.old) (K.faults sink.new)
        result.standby }
    ensures primary { result.primary ≡ taken.old.disk }
{
    let Taken { board, old } = taken;
    let mut server = Alone { board, fence };
    let (ended, told) = run_phases(alloc, script, &mut server, sink, phases, &mut account);
    let Alone { board, fence: _ } = server;
    let standby = disk_of(board.close());
    let ran = (k as u64 - 1).saturating_add(told);
    let ending = finish(alloc, sink, ended, &account, start, ran, k as u64);
    Outcome {
        ending: PairEnding::Run(ending),
        primary: disk_of(old),
        standby,
        account,
    }
}

/// Lets the standby take over before phase `k`, and runs the phases from there on.
pub(crate) fn hand_over<K: Sink, D: Disk, E: Disk>(
    alloc: Global,
    script: &Script,
    phases: &[Phase],
    k: u32,
    mut leases: Leases,
    standing: Standing<D, E>,
    sink: &mut K,
    account: Account,
    start: u64,
) -> Outcome<D, E>
    requires few { length script.now.actors ≤ 256 }
    requires later { 1 ≤ k }
    requires room { k + length phases.now ≤ 2 ^ 64 }
    requires log { standing.pair.primary.log ≡ items_in account.answers }
    requires covers { Covers [] (length (done_on_standby standing.pair)) account.answers }
    requires copy { standing.pair.standby.log ≡ items_in account.answers }
    requires start { (start ≡ standing.pair.primary.base.next)
        × (start ≡ standing.pair.standby.base.next) }
    ensures { (how : AnEnding) × (result.ending ≡ Run how)
        × HandsOver D.told D.fault_count E.told E.fault_count E.moment script.now phases.now k start
        standing.pair account.answers result.account.answers how
        (K.held sink.old) (K.held sink.new) (K.faults sink.old) (K.faults sink.new)
        result.primary result.standby }
{
    let Standing { pair, fence } = standing;
    pair.holds();
    let Ok(next) = leases.hand_over(fence) else {
        return starved(alloc, sink, pair, account, start);
    };
    match pair.take_over(next) {
        Ok(taken) => run_alone(alloc, script, phases, k, taken, next, sink, account, start),
        Err((pair, _)) => starved(alloc, sink, pair, account, start),
    }
}
