//! Storing a payload: where the area is full or old, in the other one behind a checkpoint.
ghost use Rattle.std.specs.Prelude.{◌≡◌, ◌==◌, ◌<◌, ◌^◌, true, false, length, is_ok, is_err};
ghost use Rattle.byte_ports.specs.Cause.{HasCause};
ghost use Rattle.bbs_journal.specs.Frames.{IsPayload};
ghost use Rattle.bbs_journal.specs.Header.{IsVersion};
ghost use Rattle.bbs_journal.specs.View.{is_waiting};
ghost use Rattle.bbs_board.specs.Doubts.{RoseForEach};
ghost use Rattle.bbs_board.specs.Storing.{HasStored, StoresItem, StoreTakes};
ghost use Rattle.bbs_board.specs.View.{wants_checkpoint};

use crate::checkpoint::move_on;
use crate::putting::put;
use bbs_journal::{DiskFault, Journal};
use disk_trait::Disk;

/// With so many frames an area is full.
const MOST_FRAMES: u64 = 4096;

/// The version of the areas that older programs wrote. No frame is put into one: a checkpoint moves its
/// rows to an area of the newest version first.
pub(crate) const OLD: u16 = 1;

/// Whether the area of a journal is of that version.
pub(crate) fn is_old<D: Disk>(journal: &Journal<D>) -> bool
    ensures value { result ≡ (journal.now.version == 1) }
    ensures read { IsVersion journal.now.version }
{
    journal.version() == OLD
}

/// Whether the next frame goes behind a checkpoint. No disk that tells its content comes to the
/// last generation.
pub fn wants_checkpoint<D: Disk>(journal: &Journal<D>) -> bool
    ensures due { result ≡ wants_checkpoint journal.now }
    ensures read { IsVersion journal.now.version }
{
    let is_old = is_old(journal);
    (MOST_FRAMES <= journal.frames() || is_old) && journal.generation() < u64::MAX
}

/// Stores a payload: where a checkpoint is due behind one with this head, else behind the frames that
/// are there. What an earlier fault left is mended first.
pub fn store<D: Disk>(
    journal: &mut Journal<D>,
    head: &[u8],
    payload: &[u8],
) -> Result<(), DiskFault>
    requires payload { IsPayload payload.now }
    requires whole { journal.old.broken ≡ false }
    requires frames { journal.old.frames < 2 ^ 48 }
    requires few { wants_checkpoint journal.old ≡ true → length head.now < 2 ^ 32 }
    ensures stores { StoresItem D.told (is_ok result) head.now payload.now (D.moment journal.new.disk)
        journal.old journal.new }
    ensures has { HasStored (is_ok result) journal.old journal.new }
    ensures closes { is_waiting journal.old.waiting ≡ false → is_waiting journal.new.waiting ≡ true →
        RoseForEach 2 (D.fault_count journal.old.disk) (D.fault_count journal.new.disk) }
    ensures calls { StoreTakes (is_ok result) (is_waiting journal.old.waiting)
        journal.old.version journal.old.frames
        (D.moment journal.old.disk) (D.moment journal.new.disk) }
    ensures cause { HasCause (is_err result)
        (D.fault_count journal.old.disk) (D.fault_count journal.new.disk) }
{
    if !wants_checkpoint(journal) {
        return put(journal, payload);
    }
    move_on(journal, head)?;
    put(journal, payload)
}
