//! Loading from a disk in memory, which tells its past at every moment.
ghost use Rattle.std.specs.Prelude.{Some, IfOk, IfErr};
ghost use Rattle.byte_ports.specs.Cause.{HasCause};
ghost use Rattle.disk_trait.specs.Memory.{memory_past, calls_of, faults_of};
ghost use Rattle.disk_trait.specs.Past.{Image};
ghost use Rattle.disk_trait.specs.Shows.{Shows, KeepsContent, Secures};
ghost use Rattle.disk_trait.specs.Steps.{Goes};
ghost use Rattle.bbs_journal.specs.LoadFaults.{is_load_disk_fault};
ghost use Rattle.locket.specs.Opening.{IsLocket, RefusesLocket};
ghost use Rattle.locket.specs.View.{IsLocketFrom};

use crate::loading::load;
use crate::locket::Locket;
use bbs_journal::LoadFault;
use disk_trait::MemoryDisk;
use std::alloc::Global;

/// The same as `load`, with the sharper promise for a disk that never falls silent: what is found, or
/// refused, is what the disk held when it was handed in.
pub fn load_from_memory(
    alloc: Global,
    disk: MemoryDisk,
) -> Result<Locket<MemoryDisk>, (MemoryDisk, LoadFault)>
    ensures found { IfOk result (λ l. (c : Image) → Shows (Some (memory_past disk)) c →
        IsLocket l.base c) }
    ensures loaded { IfOk result (IsLocketFrom calls_of faults_of disk) }
    ensures refused { IfErr result (λ e. (c : Image) → Shows (Some (memory_past disk)) c →
        RefusesLocket e.1 c) }
    ensures ok { IfOk result (λ l. Goes (Some (memory_past disk)) (Some (memory_past l.disk))
        Secures) }
    ensures err { IfErr result (λ e. Goes (Some (memory_past disk)) (Some (memory_past e.0)) KeepsContent) }
    ensures cause { IfErr result (λ e. HasCause (is_load_disk_fault e.1)
        (faults_of disk) (faults_of e.0)) }
{
    load(alloc, disk)
}
