//! The opening of a lock journal.
ghost use Rattle.std.specs.Prelude.{IfOk, IfErr};
ghost use Rattle.locket.specs.Opening.{IsLocket, RefusesLocket};
ghost use Rattle.locket.specs.View.{IsLocketFrom};
ghost use Rattle.program_ends.specs.Opening.{EndsClosed, OpensWhat};
ghost use Rattle.program_ends.specs.Ports.{ports_of};

use byte_ports::Sink;
use disk_trait::Disk;
use locket::{Locket, load};
use program_ends::{Ending, ended_unloaded};
use std::alloc::Global;

/// Opens the lock journal that the disk holds. Where there is none, the line that says why is printed, and
/// the disk is given back. No byte of the disk is changed.
pub(crate) fn open<K: Sink, D: Disk>(
    alloc: Global,
    sink: &mut K,
    disk: D,
) -> Result<Locket<D>, (Ending, D)>
    ensures fresh { IfOk result (IsLocketFrom D.moment D.fault_count disk) }
    ensures opens { IfOk result (λ l. OpensWhat (IsLocket l.base)
        (ports_of (K.held sink.old) (K.faults sink.old)
        (D.told disk) (D.fault_count disk) (D.moment disk))
        (ports_of (K.held sink.new) (K.faults sink.new)
        (D.told l.disk) (D.fault_count l.disk) (D.moment l.disk))) }
    ensures ends { IfErr result (λ e. EndsClosed RefusesLocket e.0
        (ports_of (K.held sink.old) (K.faults sink.old)
        (D.told disk) (D.fault_count disk) (D.moment disk))
        (ports_of (K.held sink.new) (K.faults sink.new)
        (D.told e.1) (D.fault_count e.1) (D.moment e.1))) }
{
    match load(alloc, disk) {
        Ok(locket) => Ok(locket),
        Err((disk, fault)) => Err((ended_unloaded(alloc, sink, fault), disk)),
    }
}
