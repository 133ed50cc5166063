//! What a locket tells of itself, without a device call.
ghost use Rattle.std.specs.Prelude.{◌≡◌, ◌<◌, ◌^◌, length};
ghost use Rattle.std.specs.Option.{ForSome};
ghost use Rattle.payload_log.specs.Doubts.{RoseBy};
ghost use Rattle.payload_log.specs.Entries.{doubts_in};
ghost use Rattle.locket.specs.Kept.{KeptLocks};
ghost use Rattle.locket.specs.Lives.{state_of, IsLife, IsLawful};
ghost use Rattle.locket.specs.View.{life_of};

use crate::item::LockItem;
use crate::locket::Locket;
use crate::state::LockState;
use disk_trait::Disk;

impl<D: Disk> Locket<D> {
    /// The state now.
    pub fn state(&self) -> LockState
        ensures { result ≡ state_of (life_of self.now) }
    {
        self.state
    }

    /// What the locket did since its load, oldest first.
    pub fn log(&self) -> &[LockItem]
        ensures { result.now ≡ self.now.log }
    {
        self.log.log()
    }

    /// For each item of the log the disk's clock at the end of its call.
    pub fn marks(&self) -> &[u64]
        ensures { result.now ≡ self.now.marks }
    {
        self.log.marks()
    }

    /// What holds of each locket. It does nothing.
    pub fn holds(&self)
        ensures life { IsLife (life_of self.now) }
        ensures lawful { IsLawful (state_of self.now.base) self.now.log }
        ensures kept { ForSome (D.told self.now.disk)
            (KeptLocks self.now.base self.now.log self.now.marks self.now.since) }
        ensures doubts { RoseBy (doubts_in self.now.log) self.now.faults
            (D.fault_count self.now.disk) }
        ensures few { length self.now.log < 2 ^ 64 }
    {
        self.log.holds();
    }
}
