//! Where on its disk a board is kept.
ghost use Rattle.std.specs.Prelude.{◌≡◌, false};
ghost use Rattle.std.specs.Option.{ForSome};
ghost use Rattle.bbs_board.specs.KeptIn.{IsKeptIn};

use crate::Board;
use disk_trait::{Area, Disk};

/// The area that is read, its generation, and how many frames stand in it behind the head.
#[derive(Clone, Copy, Debug, PartialEq, Eq)]
pub struct KeptIn {
    pub area: Area,
    pub generation: u64,
    pub frames: u64,
}

impl<D: Disk> Board<D> {
    /// Where the next process finds the board. While a gate waits to be mended it may find one
    /// frame more.
    pub fn kept_in(&self) -> KeptIn
        ensures place { self.now.waits ≡ false → ForSome (D.told self.now.disk) (IsKeptIn result) }
        ensures generation { result.generation ≡ self.now.generation }
        ensures frames { result.frames ≡ self.now.frames }
    {
        KeptIn {
            area: self.journal.area(),
            generation: self.journal.generation(),
            frames: self.journal.frames(),
        }
    }
}
