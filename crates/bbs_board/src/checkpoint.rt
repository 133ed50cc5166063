//! Checkpoints: the rows in place of the frames that led to them, so that a load has few frames to do again, and
//! in the newest version.
ghost use Rattle.std.specs.Prelude.{◌≡◌, ◌-◌, ◌<◌, ◌^◌, true, false, length, is_ok, is_err};
ghost use Rattle.byte_ports.specs.Cause.{HasCause};
ghost use Rattle.disk_trait.specs.Steps.{Goes};
ghost use Rattle.bbs_journal.specs.Header.{IsVersion};
ghost use Rattle.bbs_journal.specs.View.{is_waiting};
ghost use Rattle.bbs_board.specs.Checkpoint.{Checkpoints, CheckpointTakes, EndsCheckpoint, HasCompacted, MovedOn, MovesOn, StandsCompacted, StaysCompacted, SwitchTakes, has_to_compact, is_checkpoint_fault};
ghost use Rattle.bbs_board.specs.Doubts.{CountsFaults, RoseForEach};
ghost use Rattle.bbs_board.specs.View.{rows_of};

use crate::Board;
use crate::room::prepare_head;
use crate::storage::is_old;
use bbs_journal::{DiskFault, Journal};
use bbs_model::CallFault;
use bbs_snapshot::switch;
use disk_trait::Disk;

/// Mends what an earlier fault left, and goes on in the other area with this head. Where closing or
/// opening the gate of that area fails, it is closed at once, and that is tried once, as `put` does
/// and for the same reason.
pub fn move_on<D: Disk>(journal: &mut Journal<D>, head: &[u8]) -> Result<(), DiskFault>
    requires whole { journal.old.broken ≡ false }
    requires generation { journal.old.generation < 2 ^ 64 - 1 }
    requires few { length head.now < 2 ^ 32 }
    ensures moves { MovesOn D.told (is_ok result) head.now journal.old journal.new }
    ensures knows { MovedOn (is_ok result) journal.old journal.new }
    ensures closes { is_waiting journal.old.waiting ≡ false → is_waiting journal.new.waiting ≡ true →
        RoseForEach 2 (D.fault_count journal.old.disk) (D.fault_count journal.new.disk) }
    ensures calls { SwitchTakes (is_ok result) (is_waiting journal.old.waiting)
        (D.moment journal.old.disk) (D.moment journal.new.disk) }
    ensures cause { HasCause (is_err result)
        (D.fault_count journal.old.disk) (D.fault_count journal.new.disk) }
{
    journal.mend()?;
    match switch(journal, head) {
        Ok(()) => Ok(()),
        Err(fault) => {
            let _closed = journal.mend();
            Err(fault)
        }
    }
}

/// Whether a checkpoint makes away with something, frames or an old version, and there is a next generation.
fn has_to_compact<D: Disk>(journal: &Journal<D>) -> bool
    ensures due { result ≡ has_to_compact journal.now }
    ensures read { IsVersion journal.now.version }
{
    let is_old = is_old(journal);
    (journal.frames() > 0 || is_old) && journal.generation() < u64::MAX
}

/// Goes on in the other area with this head, where that makes away with something. Else it only mends
/// what an earlier fault left, by the two device calls of that, or none.
fn compact<D: Disk>(journal: &mut Journal<D>, head: &[u8]) -> Result<(), DiskFault>
    requires whole { journal.old.broken ≡ false }
    requires few { has_to_compact journal.old ≡ true → length head.now < 2 ^ 32 }
    ensures stands { StandsCompacted D.told (is_ok result) head.now journal.old journal.new }
    ensures knows { HasCompacted (is_ok result) journal.old journal.new }
    ensures closes { is_waiting journal.old.waiting ≡ false → is_waiting journal.new.waiting ≡ true →
        RoseForEach 2 (D.fault_count journal.old.disk) (D.fault_count journal.new.disk) }
    ensures calls { CheckpointTakes (is_ok result) (is_waiting journal.old.waiting)
        (D.moment journal.old.disk) (D.moment journal.new.disk) }
    ensures cause { HasCause (is_err result)
        (D.fault_count journal.old.disk) (D.fault_count journal.new.disk) }
{
    if !has_to_compact(journal) {
        return journal.mend();
    }
    move_on(journal, head)
}

impl<D: Disk> Board<D> {
    /// Puts the rows as a head into the other area of the disk, and goes on there in the newest version
    /// and without frames, so that the next load has none to do again. Where there are none, and the
    /// area has that version, it only mends what an earlier fault left, if anything. So after Ok nothing
    /// waits, whatever waited before. It takes the time and the memory of the rows in bytes, and has its
    /// memory before its first device call. Where one of those fails the board goes on in the area that
    /// it is in, and has no doubt more: a stop leaves the rows in any case.
    pub fn checkpoint(&mut self) -> Result<(), CallFault>
        ensures stays { StaysCompacted (is_ok result) self.old self.new }
        ensures ends { EndsCheckpoint (length self.old.log) result }
        ensures does { Goes (D.told self.old.disk) (D.told self.new.disk)
            (Checkpoints (is_ok result) self.old.waits (rows_of self.old)) }
        ensures calls { CheckpointTakes (is_ok result) self.old.waits
            (D.moment self.old.disk) (D.moment self.new.disk) }
        ensures faults { CountsFaults (is_checkpoint_fault result) self.old.waits self.new.waits
            (D.fault_count self.old.disk) (D.fault_count self.new.disk) }
    {
        let place = self.history.place();
        let due = has_to_compact(&self.journal);
        if prepare_head(&self.index, &mut self.draft, due).is_err() {
            return Err(CallFault::OutOfMemory);
        }
        match compact(&mut self.journal, &self.draft.bytes) {
            Ok(()) => Ok(()),
            Err(_) => Err(CallFault::Disk { place }),
        }
    }
}
