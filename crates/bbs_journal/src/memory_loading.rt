//! Loading from a disk in memory, which tells its past at every moment.
ghost use Rattle.std.specs.Prelude.{◌≤◌, length, Some, IfOk, IfErr};
ghost use Rattle.byte_ports.specs.Cause.{HasCause};
ghost use Rattle.disk_trait.specs.Memory.{memory_past, faults_of};
ghost use Rattle.disk_trait.specs.Past.{Image};
ghost use Rattle.disk_trait.specs.Steps.{Goes};
ghost use Rattle.bbs_journal.specs.Found.{IsJustLoaded};
ghost use Rattle.bbs_journal.specs.Opening.{IsOpening};
ghost use Rattle.bbs_journal.specs.Reading.{payloads_of};
ghost use Rattle.bbs_journal.specs.NotLoaded.{IsWhy, IsCutAt, is_disk_why};
ghost use Rattle.disk_trait.specs.Shows.{Shows, KeepsContent, Secures};

use crate::{Loaded, NotLoaded, load};
use disk_trait::MemoryDisk;
use std::alloc::Global;

/// The same as `load`, with the sharper promise for a disk that never falls silent: what is found, or
/// refused, is what the disk held when it was handed in.
pub fn load_from_memory(
    alloc: Global,
    disk: MemoryDisk,
    most: u32,
) -> Result<Loaded<MemoryDisk>, (MemoryDisk, NotLoaded)>
    ensures found { IfOk result (λ l. (c : Image) → Shows (Some (memory_past disk)) c →
        IsOpening c l.journal.area l.journal.version l.journal.generation l.head.items
        (payloads_of l.frames.items) l.broken l.journal.end) }
    ensures fresh { IfOk result (IsJustLoaded (λ d. Some (memory_past d)) faults_of disk) }
    ensures short { IfOk result (λ l. length l.head.items ≤ most) }
    ensures why { IfErr result (λ e. (c : Image) → Shows (Some (memory_past disk)) c → IsWhy e.1 c) }
    ensures cut { IfErr result (λ e. IsCutAt most e.1) }
    ensures ok { IfOk result (λ l. Goes (Some (memory_past disk))
        (Some (memory_past l.journal.disk)) Secures) }
    ensures err { IfErr result (λ e. Goes (Some (memory_past disk)) (Some (memory_past e.0)) KeepsContent) }
    ensures cause { IfErr result (λ e. HasCause (is_disk_why e.1)
        (faults_of disk) (faults_of e.0)) }
{
    load(alloc, disk, most)
}
