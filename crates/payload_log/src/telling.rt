//! What a log tells of itself, without a device call.
ghost use Rattle.std.specs.Prelude.{◌≡◌, ◌<◌, ◌^◌, false, length};
ghost use Rattle.std.specs.Option.{ForSome};
ghost use Rattle.disk_trait.specs.Past.{Image, Images};
ghost use Rattle.payload_log.specs.Doubts.{RoseBy};
ghost use Rattle.payload_log.specs.Entries.{doubts_in, stored_in};
ghost use Rattle.payload_log.specs.Kept.{KeptList};
ghost use Rattle.payload_log.specs.Opened.{OpensBehind};

use crate::entry::Entry;
use crate::log::PayloadLog;
use crate::payload::Payload;
use disk_trait::Disk;

impl<D: Disk, X: Payload> PayloadLog<D, X> {
    /// What was put since the log began, oldest first.
    pub fn log(&self) -> &[Entry<X>]
        ensures { result.now ≡ self.now.log }
    {
        &self.log
    }

    /// For each entry the disk's clock at the end of its call.
    pub fn marks(&self) -> &[u64]
        ensures { result.now ≡ self.now.marks }
    {
        &self.marks
    }

    /// The number of device calls so far.
    pub fn clock(&self) -> u64
        ensures { result ≡ D.moment self.now.disk }
    {
        self.journal.clock()
    }

    /// Whether a gate has to be mended before the next payload: until then a stop may show the last
    /// doubt.
    pub fn waits(&self) -> bool
        ensures { result ≡ self.now.waits }
    {
        self.journal.waits()
    }

    /// What holds of each log. It does nothing.
    pub fn holds(&self)
        ensures kept { ForSome (D.told self.now.disk) (KeptList X.spelling self.now.start
            self.now.log self.now.marks self.now.since) }
        ensures calm { self.now.waits ≡ false → ForSome (D.told self.now.disk)
            (λ p. (image : Image) → Images p image →
            OpensBehind self.now.start (stored_in X.spelling self.now.log) image) }
        ensures doubts { RoseBy (doubts_in self.now.log) self.now.faults
            (D.fault_count self.now.disk) }
        ensures few { length self.now.log < 2 ^ 64 }
    {
        let _count = self.log.len();
    }
}
