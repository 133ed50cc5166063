//! Opening a journal: both areas are made sure to stay as they are, and then read.
ghost use Rattle.std.specs.Prelude.{◌≤◌, is_ok, length, IfOk, IfErr};
ghost use Rattle.std.specs.Option.{ForSome};
ghost use Rattle.byte_ports.specs.Cause.{HasCause};
ghost use Rattle.disk_trait.specs.Past.{Image};
ghost use Rattle.disk_trait.specs.Steps.{Goes};
ghost use Rattle.bbs_journal.specs.View.{IsKept};
ghost use Rattle.bbs_journal.specs.Opening.{IsOpening};
ghost use Rattle.bbs_journal.specs.Reading.{payloads_of};
ghost use Rattle.bbs_journal.specs.LoadFaults.{failed};
ghost use Rattle.bbs_journal.specs.NotLoaded.{IsWhy, IsCutAt, is_disk_why};
ghost use Rattle.disk_trait.specs.Shows.{Shows, KeepsContent, Secures, Syncs};
ghost use Rattle.bbs_journal.specs.declared.waiting.Waiting.TheVariants.{Nothing};
ghost use Rattle.bbs_journal.specs.Found.{IsFoundIn, IsCounted, IsJustLoaded};

use crate::find::{Found, find};
use crate::look::settle;
use crate::{Journal, NotLoaded};
use disk_trait::Disk;
use std::alloc::Global;

/// A journal, the head of its area, and the payloads of its frames in their order.
#[derive(Drop)]
pub struct Loaded<D: Disk> {
    pub journal: Journal<D>,
    pub head: Vec<u8>,
    pub frames: Vec<Vec<u8>>,
    /// The place of the first frame that is not whole, or of a missing gate, behind those frames.
    pub broken: Option<u64>,
    /// The format version of that area, 1 or 2: the head and the payloads are to be read by it.
    pub version: u16,
}

fn read_disk<D: Disk>(alloc: Global, disk: &mut D, most: u32) -> Result<Found, NotLoaded>
    ensures shows { IfOk result (λ f. (c : Image) → Shows (D.told disk.new) c → IsFoundIn c f) }
    ensures counts { IfOk result IsCounted }
    ensures kept { IfOk result (λ f. ForSome (D.told disk.new) (IsKept f.place.area
        f.place.version f.place.generation f.place.end f.place.frames Nothing f.place.broken f.place.gate)) }
    ensures short { IfOk result (λ f. length f.head.items ≤ most) }
    ensures why { IfErr result (λ e. (c : Image) → Shows (D.told disk.new) c → IsWhy e c) }
    ensures cut { IfErr result (IsCutAt most) }
    ensures does { Goes (D.told disk.old) (D.told disk.new) (Syncs (is_ok result)) }
    ensures cause { HasCause (failed is_disk_why result)
        (D.fault_count disk.old) (D.fault_count disk.new) }
{
    settle(disk)?;
    find(alloc, disk, most)
}

/// Reads a disk that holds a journal, whose head has `most` bytes at the most: of a longer one no more
/// than these are read, so that a length alone takes no memory. At `Ok` both areas are synced. A frame
/// that is not whole is no fault: what stands before it is read, and nothing can be appended or mended.
pub fn load<D: Disk>(alloc: Global, mut disk: D, most: u32) -> Result<Loaded<D>, (D, NotLoaded)>
    ensures found { IfOk result (λ l. (c : Image) → Shows (D.told l.journal.disk) c →
        IsOpening c l.journal.area l.journal.version l.journal.generation l.head.items
        (payloads_of l.frames.items) l.broken l.journal.end) }
    ensures fresh { IfOk result (IsJustLoaded D.told D.fault_count disk) }
    ensures short { IfOk result (λ l. length l.head.items ≤ most) }
    ensures why { IfErr result (λ e. (c : Image) → Shows (D.told e.0) c → IsWhy e.1 c) }
    ensures cut { IfErr result (λ e. IsCutAt most e.1) }
    ensures ok { IfOk result (λ l. Goes (D.told disk) (D.told l.journal.disk) Secures) }
    ensures err { IfErr result (λ e. Goes (D.told disk) (D.told e.0) KeepsContent) }
    ensures cause { IfErr result (λ e. HasCause (is_disk_why e.1)
        (D.fault_count disk) (D.fault_count e.0)) }
{
    match read_disk(alloc, &mut disk, most) {
        Ok(found) => Ok(Loaded {
            version: found.place.version,
            journal: Journal::resume(disk, found.place),
            head: found.head,
            frames: found.payloads,
            broken: found.broken,
        }),
        Err(why) => Err((disk, why)),
    }
}
