//! Why a call of a journal was not made.

use byte_ports::Failed;

/// A device call failed, and the disk's count of faults says so.
#[derive(Clone, Copy, Debug, PartialEq, Eq)]
pub struct DiskFault;

impl From<Failed> for DiskFault {
    fn from(_: Failed) -> DiskFault {
        DiskFault
    }
}
