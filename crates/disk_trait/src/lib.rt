//! Two areas of bytes on a disk: what a read gives now, and what a stop at any moment may leave.
#![tactic(auto)]

mod area;
mod areas;
mod deed;
mod disk;
mod image;
mod memory_area;
mod memory_disk;
mod meter;

pub use area::Area;
pub use disk::Disk;
pub use image::Torn;
pub use memory_disk::MemoryDisk;
pub use meter::Meter;
