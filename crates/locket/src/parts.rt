//! What is left of a locket that was closed.
ghost use Rattle.std.specs.Prelude.{◌≡◌};
ghost use Rattle.std.specs.Option.{ForSome};
ghost use Rattle.payload_log.specs.Doubts.{RoseBy};
ghost use Rattle.payload_log.specs.Entries.{doubts_in};
ghost use Rattle.locket.specs.Kept.{KeptLocks};
ghost use Rattle.locket.specs.Lives.{state_of, IsLife, IsLawful};
ghost use Rattle.locket.specs.View.{life_of};

use crate::item::LockItem;
use crate::locket::Locket;
use disk_trait::Disk;
use payload_log::Parts;

/// The disk, what the locket did on it, oldest first, and for each item the disk's clock at the end of
/// its call.
pub struct LocketParts<D> {
    pub disk: D,
    pub log: Vec<LockItem>,
    pub marks: Vec<u64>,
}

impl<D: Disk> Locket<D> {
    /// Gives the disk back, with what the locket did on it.
    pub fn into_parts(self) -> LocketParts<D>
        ensures fields { (result.disk ≡ self.disk) × (result.log.items ≡ self.log)
            × (result.marks.items ≡ self.marks) }
        ensures lawful { IsLife (life_of self) × IsLawful (state_of self.base) self.log }
        ensures kept { ForSome (D.told self.disk) (KeptLocks self.base self.log self.marks self.since) }
        ensures doubts { RoseBy (doubts_in self.log) self.faults (D.fault_count self.disk) }
    {
        let Locket { log, state: _ } = self;
        let Parts { disk, log, marks } = log.into_parts();
        LocketParts { disk, log, marks }
    }

    /// Gives the disk back.
    pub fn close(self) -> D
        ensures { result ≡ self.disk }
    {
        let LocketParts {
            disk,
            log: _,
            marks: _,
        } = self.into_parts();
        disk
    }
}
