//! The opening of what a disk holds, and how the program ends where nothing was loaded.
ghost use Rattle.std.specs.Prelude.{◌≡◌, Bool, IfOk, IfErr};
ghost use Rattle.bbs_board.specs.View.{IsFresh};
ghost use Rattle.program_ends.specs.Ending.{EndsAs, line_of};
ghost use Rattle.program_ends.specs.Opening.{Opens, EndsUnopened, ending_for};
ghost use Rattle.program_ends.specs.Ports.{PrintsTo, ports_of};

use crate::ending::Ending;
use crate::printing::ended_before;
use bbs_board::{Board, LoadFault, load};
use byte_ports::Sink;
use disk_trait::Disk;
use std::alloc::Global;

/// How it ends that could not load what the disk holds.
fn ending_for(fault: LoadFault) -> Ending
    ensures { result ≡ ending_for fault }
{
    match fault {
        LoadFault::Disk => Ending::Unopened,
        LoadFault::NotABoard { area } => Ending::NotABoard { area },
        LoadFault::Damaged { area, at } => Ending::Damaged { area, at },
        LoadFault::OutOfMemory => Ending::OutOfMemory,
    }
}

/// Prints the line that tells why nothing was loaded, and ends so.
pub fn ended_unloaded<K: Sink>(alloc: Global, sink: &mut K, fault: LoadFault) -> Ending
    ensures ending { EndsAs (ending_for fault) result }
    ensures prints { (whole : Bool) × PrintsTo whole (line_of result)
        (K.held sink.old) (K.held sink.new) (K.faults sink.old) (K.faults sink.new) }
{
    ended_before(alloc, sink, ending_for(fault))
}

/// Opens the board that the disk holds. Where there is none, the line that says why is printed, and
/// the disk is given back. No byte of the disk is changed.
pub fn open<K: Sink, D: Disk>(alloc: Global, sink: &mut K, disk: D) -> Result<Board<D>, (Ending, D)>
    ensures fresh { IfOk result IsFresh }
    ensures since { IfOk result (λ b. b.since ≡ D.moment b.disk) }
    ensures faults { IfOk result (λ b. b.faults ≡ D.fault_count b.disk) }
    ensures opens { IfOk result (λ b. Opens b.base
        (ports_of (K.held sink.old) (K.faults sink.old)
        (D.told disk) (D.fault_count disk) (D.moment disk))
        (ports_of (K.held sink.new) (K.faults sink.new)
        (D.told b.disk) (D.fault_count b.disk) (D.moment b.disk))) }
    ensures ends { IfErr result (λ e. EndsUnopened e.0
        (ports_of (K.held sink.old) (K.faults sink.old)
        (D.told disk) (D.fault_count disk) (D.moment disk))
        (ports_of (K.held sink.new) (K.faults sink.new)
        (D.told e.1) (D.fault_count e.1) (D.moment e.1))) }
{
    match load(alloc, disk) {
        Ok(board) => Ok(board),
        Err((disk, fault)) => Err((ended_unloaded(alloc, sink, fault), disk)),
    }
}
