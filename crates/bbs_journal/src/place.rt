//! Where the frames of a disk are.

use crate::OtherGate;
use disk_trait::Area;

/// Where a reader of a disk found its frames, and that nothing but a closed gate or a defect follows
/// them.
#[derive(Clone, Copy)]
pub(crate) struct Place {
    pub(crate) area: Area,
    pub(crate) version: u16,
    pub(crate) generation: u64,
    pub(crate) end: u64,
    pub(crate) frames: u64,
    pub(crate) broken: bool,
    pub(crate) gate: OtherGate,
}
