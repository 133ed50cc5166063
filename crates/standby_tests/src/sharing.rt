//! A pair at a desk, over any two disks that may be sent to a thread.
ghost use Rattle.std.specs.Prelude.{◌≡◌, ℕ, ◌<◌, All, length, slice_index_or};
ghost use Rattle.ticket_desk.specs.declared.pass.Pass.{Pass};
ghost use Rattle.bbs_shared.specs.Passes.{IsSame};

use crate::closing::{Played, closed, let_both_go};
use crate::making::desire_of;
use crate::playing::paired;
use bbs_model::Reply;
use diego_names::Name;
use disk_trait::Disk;
use pair_desk::{PairPass, SharedPair};
use standby_board::{Pair, PairFault, PairReply};
use std::alloc::Global;
use std::sync::Wait;
use std::sync::atomic::{AtomicU64, Ordering};
use std::thread;
use std::thread::Threads;

/// How many calls were acknowledged, and how many were answered that the standby is behind.
#[derive(Drop)]
pub struct Counts {
    pub acknowledged: AtomicU64,
    pub behind: AtomicU64,
}

fn count(counts: &Counts, end: Result<PairReply, PairFault>) {
    match end {
        Ok(PairReply::Reply(Reply::Ok { .. })) => {
            counts.acknowledged.fetch_add(1, Ordering::SeqCst);
        }
        Err(PairFault::Behind { .. }) => {
            counts.behind.fetch_add(1, Ordering::SeqCst);
        }
        _ => {}
    }
}

// The calls of a pass: number 1 desires every second process, and number 2 the others. Each has a domain of its own
// name.
fn call_own<R: Wait, D: Disk, E: Disk>(
    rt: &R,
    shared: &SharedPair<D, E>,
    pass: &mut PairPass<D, E>,
    names: &[Name],
    counts: &Counts,
)
    requires { pass.old.place.table_id ≡ shared.now.desk.table.shared.table_id }
    ensures { IsSame pass.old pass.new }
{
    for (index, name) in names.iter().enumerate() {
        if index % 2 + 1 == pass.number() as usize {
            count(counts, shared.call(rt, pass, 1, desire_of(*name, *name)));
        }
    }
}

fn call_at_once<R: Threads + Wait + Sync, D: Disk + Drop + Send, E: Disk + Drop + Send>(
    rt: &R,
    shared: &SharedPair<D, E>,
    passes: &mut [PairPass<D, E>],
    names: &[Name],
    counts: &Counts,
)
    requires some { 0 < length passes.old }
    requires pair { All (λ p. p.place.table_id ≡ shared.now.desk.table.shared.table_id) passes.old }
    ensures { (k : ℕ) (d : Pass _ _ _) → k < length passes.old
        → IsSame (slice_index_or passes.old k d) (slice_index_or passes.new k d) }
{
    let threads = passes.len();
    thread::for_each_mut(
        rt,
        passes,
        threads,
        &|_, pass: &mut PairPass<D, E>|
            requires { pass.now.place.table_id ≡ shared.now.desk.table.shared.table_id }
            ensures { IsSame pass.entry.now pass.exit.now }
        { call_own(rt, shared, pass, names, counts) },
    );
}

// The pair after these calls by two threads.
fn called<R: Threads + Wait + Sync, D: Disk + Drop + Send, E: Disk + Drop + Send>(
    rt: &R,
    alloc: Global,
    pair: Pair<D, E>,
    names: &[Name],
    counts: &Counts,
) -> Option<Pair<D, E>> {
    match SharedPair::start(alloc, pair, 3) {
        Ok((shared, mut passes)) => {
            call_at_once(rt, &shared, passes.as_mut_slice(), names, counts);
            Some(shared.close(passes))
        }
        Err((pair, _)) => {
            let_both_go(pair);
            None
        }
    }
}

/// What is left of a pair of the boards that these disks hold, when two threads have desired these processes.
pub fn share<R: Threads + Wait + Sync, D: Disk + Drop + Send, E: Disk + Drop + Send>(
    rt: &R,
    alloc: Global,
    primary: D,
    standby: E,
    names: &[Name],
    counts: &Counts,
) -> Option<Played<D, E>> {
    match paired(alloc, primary, standby) {
        Some(pair) => match called(rt, alloc, pair, names, counts) {
            Some(pair) => Some(closed(pair, true)),
            None => None,
        },
        None => None,
    }
}
