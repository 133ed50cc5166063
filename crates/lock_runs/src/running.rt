//! What `locks` does: it reads lines of lock commands, opens a lock journal, and runs the ones on the other.
ghost use Rattle.std.specs.Prelude.{◌≡◌, ◌⊎◌, [], true};
ghost use Rattle.byte_ports.specs.Cause.{HasCause, Rose};
ghost use Rattle.program_ends.specs.Ending.{status_of};
ghost use Rattle.program_ends.specs.Opening.{is_before_board};
ghost use Rattle.program_ends.specs.Ports.{IsTold, ports_of};
ghost use Rattle.program_ends.specs.Reading.{is_read};
ghost use Rattle.lock_runs.specs.Runs.{LinesEnd, LocksEnd, MeetsLocks, RunsLines};

use crate::ended::{LocksEnded, unlocked};
use crate::lines::run_lines;
use crate::opening::open;
use crate::printing::finish;
use crate::reading::read;
use byte_ports::{Sink, Source};
use disk_trait::Disk;
use lock_lines::LockLine;
use locket::{Locket, LocketParts};
use program_ends::ended_before;
use std::alloc::Global;

/// Runs lines on a locket that was just loaded, prints what came of them, and gives the disk back.
fn run_on<K: Sink, D: Disk>(
    alloc: Global,
    lines: &[LockLine],
    mut locket: Locket<D>,
    sink: &mut K,
) -> (LocksEnded, D)
    requires log { locket.log ≡ [] }
    requires since { locket.since ≡ D.moment locket.disk }
    requires faults { locket.faults ≡ D.fault_count locket.disk }
    ensures { RunsLines locket.base lines.now result.0.ending
        result.0.locks.items result.0.marks.items
        (ports_of (K.held sink.old) (K.faults sink.old)
        (D.told locket.disk) (D.fault_count locket.disk) (D.moment locket.disk))
        (ports_of (K.held sink.new) (K.faults sink.new)
        (D.told result.1) (D.fault_count result.1) (D.moment result.1)) }
{
    let mut answers = Vec::new(alloc);
    let end = run_lines(alloc, lines, &mut locket, &mut answers);
    let ending = finish(alloc, sink, &locket, answers, end);
    let LocketParts { disk, log, marks } = locket.into_parts();
    let ended = LocksEnded {
        ending,
        locks: log,
        marks,
    };
    (ended, disk)
}

/// Runs lines on the lock journal that the disk holds, and gives the disk back.
fn run_script<K: Sink, D: Disk>(
    alloc: Global,
    lines: &[LockLine],
    sink: &mut K,
    disk: D,
) -> (LocksEnded, D)
    ensures { LinesEnd lines.now result.0.ending result.0.locks.items result.0.marks.items
        (ports_of (K.held sink.old) (K.faults sink.old)
        (D.told disk) (D.fault_count disk) (D.moment disk))
        (ports_of (K.held sink.new) (K.faults sink.new)
        (D.told result.1) (D.fault_count result.1) (D.moment result.1)) }
{
    match open(alloc, sink, disk) {
        Ok(locket) => run_on(alloc, lines, locket, sink),
        Err((ending, disk)) => (unlocked(alloc, ending), disk),
    }
}

/// Reads lines of lock commands, and runs them on the lock journal that the disk holds. The source is read
/// whole before the disk is looked at, and all lines run before anything is printed of them.
pub fn run_locks<S: Source, K: Sink, D: Disk>(
    alloc: Global,
    source: &mut S,
    sink: &mut K,
    disk: D,
) -> (LocksEnded, D)
    ensures ends { LocksEnd result.0.ending result.0.locks.items result.0.marks.items
        (S.left source.old) (S.left source.new)
        (ports_of (K.held sink.old) (K.faults sink.old)
        (D.told disk) (D.fault_count disk) (D.moment disk))
        (ports_of (K.held sink.new) (K.faults sink.new)
        (D.told result.1) (D.fault_count result.1) (D.moment result.1)) }
    ensures cause { HasCause (is_read result.0.ending) (S.faults source.old) (S.faults source.new) }
    ensures unopened { is_before_board (status_of result.0.ending) ≡ true → result.1 ≡ disk }

    // With lines and a lock journal, and without a fault, all is done unless memory runs out.
    ensures complete { MeetsLocks (S.left source.old) (D.told disk) → IsTold (D.told result.1)
        → (Rose (S.faults source.old) (S.faults source.new) → ⊥)
        → (Rose (K.faults sink.old) (K.faults sink.new) → ⊥)
        → (Rose (D.fault_count disk) (D.fault_count result.1) → ⊥)
        → (status_of result.0.ending ≡ 0) ⊎ (status_of result.0.ending ≡ 7) }
{
    match read(alloc, source) {
        Ok(lines) => run_script(alloc, lines.items(), sink, disk),
        Err(ending) => (unlocked(alloc, ended_before(alloc, sink, ending)), disk),
    }
}
