//! What is left of a log when it ends.
ghost use Rattle.std.specs.Prelude.{◌≡◌};
ghost use Rattle.std.specs.Option.{ForSome};
ghost use Rattle.payload_log.specs.Doubts.{RoseBy};
ghost use Rattle.payload_log.specs.Entries.{doubts_in};
ghost use Rattle.payload_log.specs.Kept.{KeptList};

use crate::entry::Entry;
use crate::log::PayloadLog;
use crate::payload::Payload;
use disk_trait::Disk;

/// The disk, what was put, oldest first, and for each entry the disk's clock at the end of its call.
pub struct Parts<D, X> {
    pub disk: D,
    pub log: Vec<Entry<X>>,
    pub marks: Vec<u64>,
}

impl<D: Disk, X: Payload> PayloadLog<D, X> {
    /// Ends the log. It makes no device call.
    pub fn into_parts(self) -> Parts<D, X>
        ensures fields { (result.disk ≡ self.disk) × (result.log.items ≡ self.log)
            × (result.marks.items ≡ self.marks) }
        ensures kept { ForSome (D.told self.disk)
            (KeptList X.spelling self.start self.log self.marks self.since) }
        ensures doubts { RoseBy (doubts_in self.log) self.faults (D.fault_count self.disk) }
    {
        let PayloadLog {
            journal,
            head: _,
            frames: _,
            log,
            marks,
            since: _,
            faults: _,
        } = self;
        Parts {
            disk: journal.into_disk(),
            log,
            marks,
        }
    }
}
