//! Making an empty journal.
ghost use Rattle.std.specs.Prelude.{◌≡◌};
ghost use Rattle.byte_ports.specs.Cause.{HasCause};
ghost use Rattle.disk_trait.specs.Steps.{Goes};
ghost use Rattle.bbs_journal.specs.Preparing.{PreparesBy, OpensEmpty, is_prepare_disk_fault};
ghost use Rattle.bbs_journal.specs.declared.preparing.PrepareFault.TheVariants as faults;

use byte_ports::Failed;
use disk_trait::{Area, Disk};

/// An open header gate, the magic, version 2, generation 1, a head of 28 zero bytes (a board
/// without rows), and a closed gate.
const PREPARED: [u8; 52] = [
    1, b'D', b'I', b'E', b'G', b'O', b'B', b'B', b'S', 0, 2, 0, 0, 0, 0, 0, 0, 0, 1, 0, 0, 0, 28,
    0, 0, 0, 0, 0, 0, 0, 0, 0, 0, 0, 0, 0, 0, 0, 0, 0, 0, 0, 0, 0, 0, 0, 0, 0, 0, 0, 0, 0,
];

/// Why nothing was prepared.
#[derive(Clone, Copy, Debug, PartialEq, Eq)]
pub enum PrepareFault {
    /// A device call failed. Where an area had bytes nothing was written; else the first one may
    /// hold a part of the header now.
    Disk,
    /// An area has bytes. Nothing was written.
    NotEmpty,
}

impl From<Failed> for PrepareFault {
    ghost from_gives = { λ _ e. e ≡ faults.Disk };

    fn from(_: Failed) -> PrepareFault {
        PrepareFault::Disk
    }
}

/// Makes a journal without frames of two empty areas, and syncs both. It looks at both before it writes,
/// and takes no memory.
pub fn prepare<D: Disk>(disk: &mut D) -> Result<(), PrepareFault>
    ensures does { Goes (D.told disk.old) (D.told disk.new) (PreparesBy result) }
    ensures cause { HasCause (is_prepare_disk_fault result)
        (D.fault_count disk.old) (D.fault_count disk.new) }
{
    let a = disk.len(Area::A)?;
    let b = disk.len(Area::B)?;
    if a != 0 || b != 0 {
        return Err(PrepareFault::NotEmpty);
    }
    disk.write_at(Area::A, 0, &PREPARED)?;
    disk.sync(Area::A)?;
    disk.sync(Area::B)?;
    Ok(())
}

/// What was prepared is opened without frames, and at place 51 stands the gate of the first.
pub fn what_is_prepared_is_opened()
    ensures { OpensEmpty }
{}
