//! Why a journal was not loaded.

use byte_ports::Failed;
use disk_trait::Area;
use std::alloc::{AllocError, AllocFailed};

/// Neither Disk nor OutOfMemory says anything of what is on the disk.
#[derive(Clone, Copy, Debug, PartialEq, Eq)]
pub enum LoadFault {
    /// A device call failed, and the disk's count of faults says so.
    Disk,
    /// An open area isn't one of a board of version 1, or neither area is open.
    NotABoard { area: Area },
    /// The first defect of the area's header, its generation or its head, at this place.
    Damaged { area: Area, at: u64 },
    /// There was no memory for the head or the frames.
    OutOfMemory,
}

impl From<Failed> for LoadFault {
    ghost use Rattle.std.specs.Prelude.{◌≡◌};
    ghost use Rattle.bbs_journal.specs.declared.load_fault.LoadFault.TheVariants.{Disk};

    ghost from_gives = { λ _ e. e ≡ Disk };

    fn from(_: Failed) -> LoadFault {
        LoadFault::Disk
    }
}

impl From<AllocError> for LoadFault {
    ghost use Rattle.std.specs.Prelude.{◌≡◌};
    ghost use Rattle.bbs_journal.specs.declared.load_fault.LoadFault.TheVariants.{OutOfMemory};

    ghost from_gives = { λ _ e. e ≡ OutOfMemory };

    fn from(_: AllocError) -> LoadFault {
        LoadFault::OutOfMemory
    }
}

impl<T: Drop> From<AllocFailed<T>> for LoadFault {
    ghost use Rattle.std.specs.Prelude.{◌≡◌};
    ghost use Rattle.bbs_journal.specs.declared.load_fault.LoadFault.TheVariants.{OutOfMemory};

    ghost from_gives = { λ _ e. e ≡ OutOfMemory };

    fn from(_: AllocFailed<T>) -> LoadFault {
        LoadFault::OutOfMemory
    }
}
