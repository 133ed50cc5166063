//! Why no journal was loaded: a fault, or a head that is longer than any of its caller's.

use crate::LoadFault;
use byte_ports::Failed;
use disk_trait::Area;

/// The first bytes of a head, as many as were asked for. The head has more.
#[derive(Drop)]
pub struct LongHead {
    pub area: Area,
    /// The format version of that area, 1 or 2.
    pub version: u16,
    pub begin: Vec<u8>,
}

/// Why a disk was not loaded. Whoever knows what heads mean can tell the defect of a long one.
#[derive(Drop)]
pub enum NotLoaded {
    /// The journal itself has this fault.
    Fault(LoadFault),
    /// It has a head, longer than was allowed for. The rest of it and the frames were not read.
    LongHead(LongHead),
}

impl From<LoadFault> for NotLoaded {
    ghost use Rattle.std.specs.Prelude.{◌≡◌};
    ghost use Rattle.bbs_journal.specs.declared.not_loaded.NotLoaded.TheVariants.{Fault};

    ghost from_gives = { λ fault e. e ≡ Fault fault };

    fn from(fault: LoadFault) -> NotLoaded {
        NotLoaded::Fault(fault)
    }
}

impl From<Failed> for NotLoaded {
    ghost use Rattle.std.specs.Prelude.{◌≡◌};
    ghost use Rattle.bbs_journal.specs.declared.load_fault.LoadFault.TheVariants.{Disk};
    ghost use Rattle.bbs_journal.specs.declared.not_loaded.NotLoaded.TheVariants.{Fault};

    ghost from_gives = { λ _ e. e ≡ Fault Disk };

    fn from(_: Failed) -> NotLoaded {
        NotLoaded::Fault(LoadFault::Disk)
    }
}
