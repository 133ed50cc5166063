//! Mending what an earlier fault left, and then appending.
ghost use Rattle.std.specs.Prelude.{◌≡◌, ◌<◌, ◌^◌, true, false, length, is_ok, is_err};
ghost use Rattle.byte_ports.specs.Cause.{HasCause};
ghost use Rattle.disk_trait.specs.Steps.{Goes};
ghost use Rattle.bbs_journal.specs.Calls.{AddsFrame, GrowsBy};
ghost use Rattle.bbs_journal.specs.Frames.{IsPayload};
ghost use Rattle.bbs_journal.specs.View.{is_waiting};
ghost use Rattle.payload_log.specs.Doubts.{RoseBy};
ghost use Rattle.payload_log.specs.Puts.{OnlyFrameWaits, Puts, TakesPut};

use bbs_journal::{DiskFault, Journal};
use disk_trait::Disk;

/// Puts a payload behind the frames of a journal. Where a failed call left its gate in doubt, that is
/// closed first, so that only one payload is ever in doubt. A put that fails at its own gate closes it
/// at once, and tries that once: whoever opens the disk next may be told by a read what no sync will
/// ever write. Where closing it fails too, the gate waits for the next put.
pub(crate) fn put<D: Disk>(journal: &mut Journal<D>, payload: &[u8]) -> Result<(), DiskFault>
    requires payload { IsPayload payload.now }
    requires whole { journal.old.broken ≡ false }
    requires own { OnlyFrameWaits journal.old.waiting }
    requires frames { journal.old.frames < 2 ^ 48 }
    ensures does { Goes (D.told journal.old.disk) (D.told journal.new.disk)
        (Puts journal.old.area (is_ok result) (is_waiting journal.old.waiting)
        (is_waiting journal.new.waiting) payload.now journal.old.end) }
    ensures appends { is_waiting journal.old.waiting ≡ false → Goes (D.told journal.old.disk)
        (D.told journal.new.disk)
        (AddsFrame journal.old.area (is_ok result) (is_waiting journal.new.waiting) payload.now
        journal.old.end) }
    ensures closes { is_waiting journal.old.waiting ≡ false → is_waiting journal.new.waiting ≡ true →
        RoseBy 2 (D.fault_count journal.old.disk) (D.fault_count journal.new.disk) }
    ensures calls { TakesPut (is_ok result) (is_waiting journal.old.waiting)
        (D.moment journal.old.disk) (D.moment journal.new.disk) }
    ensures cause { HasCause (is_err result)
        (D.fault_count journal.old.disk) (D.fault_count journal.new.disk) }
    ensures grows { GrowsBy (is_ok result) (length payload.now) journal.old journal.new }
{
    journal.mend()?;
    match journal.append(payload) {
        Ok(()) => Ok(()),
        Err(fault) => {
            let _closed = journal.mend();
            Err(fault)
        }
    }
}
