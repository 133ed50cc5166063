//! The phases of a script on a pair of boards, up to a take-over and behind it.
ghost use Rattle.std.specs.Prelude.{◌≡◌, ◌<◌, ◌≤◌, true, false, [], length, None, List, Option};
ghost use Rattle.pair_lines.specs.declared.answered.PairAnswered.{PairAnswered as Answer};
ghost use Rattle.pair_runs.specs.declared.phases.PhasesEnded.TheVariants.{Done as AllDone};
ghost use Rattle.program_ends.specs.declared.ending.Ending.{Ending as AnEnding};
ghost use Rattle.scenario_reader.specs.Facts.{IsScript};
ghost use Rattle.pair_top.specs.Boards.{LeavesBoards};
ghost use Rattle.pair_top.specs.Runs.{RunsScript, phases_before};
ghost use Rattle.pair_top.specs.declared.ending.PairEnding.TheVariants.{Run};

use crate::closing::{closed, starved};
use crate::handing::hand_over;
use crate::leases::Leases;
use crate::outcome::Outcome;
use crate::standing::Standing;
use byte_ports::Sink;
use disk_trait::Disk;
use pair_runs::{Account, PhasesEnded, run_phases};
use scenario_lines::{Phase, Script};
use standby_board::Pair;
use std::alloc::Global;

/// How many phases come before the take-over before phase `k`: all, where there is no such phase.
fn phases_before(k: u32, phases: usize) -> usize
    ensures value { result ≡ phases_before k phases }
    ensures few { result ≤ phases }
{
    if k == 0 || k as usize > phases {
        phases
    } else {
        k as usize - 1
    }
}

/// How many phases there are.
fn count_of(phases: &[Phase]) -> usize
    ensures { result ≡ length phases.now }
{
    phases.len()
}

/// Whether the standby is to take over: the phases before that all ran, and some are left.
fn is_due(ended: PhasesEnded, behind: &[Phase]) -> bool
    ensures due { result ≡ true → (ended ≡ AllDone) × (0 < length behind.now) }
    ensures none { result ≡ false → ended ≡ AllDone → behind.now ≡ [] }
{
    match ended {
        PhasesEnded::Done => !behind.is_empty(),
        PhasesEnded::Doubt | PhasesEnded::Unwritten | PhasesEnded::OutOfMemory => false,
    }
}

/// Runs a script on a pair that was just started, and whose calls show this number.
fn run_standing<K: Sink, D: Disk, E: Disk>(
    alloc: Global,
    script: &Script,
    k: u32,
    leases: Leases,
    mut server: Standing<D, E>,
    sink: &mut K,
    mut account: Account,
    start: u64,
) -> Outcome<D, E>
    requires few { length script.now.actors ≤ 256 }
    requires none { account.answers ≡ [] }
    requires start { start ≡ server.pair.primary.base.next }
    requires fresh { (server.pair.primary.log ≡ []) × (server.pair.standby.log ≡ [])
        × (server.pair.missing ≡ None) }
    requires begun { (server.pair.primary_start ≡ server.pair.primary)
        × (server.pair.standby_start ≡ server.pair.standby) }
    ensures { (how : AnEnding) × (first : Option (List Answer)) × (result.ending ≡ Run how)
        × RunsScript script.now k server.pair.primary.base how result.account.answers first
        (K.held sink.old) (K.held sink.new) (K.faults sink.old) (K.faults sink.new)
        (D.fault_count server.pair.primary.disk) (D.fault_count result.primary)
        (E.fault_count server.pair.standby.disk) (E.fault_count result.standby)
        × LeavesBoards D.told D.fault_count E.told E.fault_count E.moment first server.pair
        result.account.answers result.primary result.standby }
{
    server.pair.holds();
    let phases = script.phases.items();
    let all = count_of(phases);
    let (before, behind) = phases.split_at(phases_before(k, all));
    let (ended, told) = run_phases(alloc, script, &mut server, sink, before, &mut account);
    server.pair.holds();
    if is_due(ended, behind) {
        return hand_over(
            alloc, script, behind, k, leases, server, sink, account, start,
        );
    }
    let Standing { pair, fence: _ } = server;
    closed(alloc, sink, pair, ended, account, start, told)
}

/// Runs a script on a pair that was just started, whose boards had made so many transitions in their life.
pub(crate) fn run_on<K: Sink, D: Disk, E: Disk>(
    alloc: Global,
    script: &Script,
    k: u32,
    pair: Pair<D, E>,
    start: u64,
    sink: &mut K,
) -> Outcome<D, E>
    requires script { IsScript script.now }
    requires start { start ≡ pair.primary.base.next }
    requires fresh { (pair.primary.log ≡ []) × (pair.standby.log ≡ []) × (pair.missing ≡ None) }
    requires begun { (pair.primary_start ≡ pair.primary) × (pair.standby_start ≡ pair.standby) }
    requires unshown { pair.fence.greatest ≡ 0 }
    ensures runs { (how : AnEnding) × (first : Option (List Answer)) × (result.ending ≡ Run how)
        × RunsScript script.now k pair.primary.base how result.account.answers first
        (K.held sink.old) (K.held sink.new) (K.faults sink.old) (K.faults sink.new)
        (D.fault_count pair.primary.disk) (D.fault_count result.primary)
        (E.fault_count pair.standby.disk) (E.fault_count result.standby)
        × LeavesBoards D.told D.fault_count E.told E.fault_count E.moment first pair
        result.account.answers result.primary result.standby }
{
    let account = Account::new(alloc);
    let Ok((leases, fence)) = Leases::begin(alloc) else {
        return starved(alloc, sink, pair, account, start);
    };
    let server = Standing { pair, fence };
    run_standing(alloc, script, k, leases, server, sink, account, start)
}
