//! What a pair tells of itself, without a device call.
ghost use Rattle.std.specs.Prelude.{◌≡◌, length};
ghost use Rattle.std.specs.Option.{ForSome};
ghost use Rattle.bbs_board.specs.Kept.{RiseBetween};
ghost use Rattle.bbs_board.specs.View.{rows_of};
ghost use Rattle.fenced_board.specs.Fences.{NumbersEach};
ghost use Rattle.standby_board.specs.Images.{StandbyShows};
ghost use Rattle.standby_board.specs.Pairs.{FollowsRows, IsKeptBoard, StandsPaired, command_of};

use crate::pair::Pair;
use bbs_model::{Command, Item};
use disk_trait::Disk;

impl<D: Disk, E: Disk> Pair<D, E> {
    /// The command that the primary has stored and the standby has not, if there is one.
    pub fn missing(&self) -> Option<Command>
        ensures { result ≡ command_of self.now.missing }
    {
        match self.missing {
            None => None,
            Some((_, command)) => Some(command),
        }
    }

    /// For each item that the primary's log gained since `start` the number with which it was written.
    /// They never fall, and none is below the floor.
    pub fn fences(&self) -> &[u64]
        ensures value { result.now ≡ self.now.fence.numbers }
        ensures rising { RiseBetween self.now.fence.floor result.now self.now.fence.greatest }
        ensures each { NumbersEach self.now.primary (length self.now.primary_start.log)
            self.now.fence }
    {
        self.fence.numbers()
    }

    /// The greatest number that was shown, and the floor before the first.
    pub fn greatest(&self) -> u64
        ensures { result ≡ self.now.fence.greatest }
    {
        self.fence.greatest()
    }

    /// What the primary did since it was loaded, oldest first.
    pub fn log(&self) -> &[Item]
        ensures { result.now ≡ self.now.primary.log }
    {
        self.primary.log()
    }

    /// The number of transitions in the primary's life.
    pub fn next(&self) -> u64
        ensures { result ≡ (rows_of self.now.primary).next }
    {
        self.primary.next()
    }

    /// What holds of each pair. It does nothing.
    pub fn holds(&self)
        ensures stands { StandsPaired D.told E.told self.now }
        ensures rows { FollowsRows self.now }
        ensures shows { ForSome (E.told self.now.standby.disk)
            (StandbyShows (E.moment self.now.standby_start.disk) self.now) }
        ensures primary { IsKeptBoard D.told D.fault_count self.now.primary }
        ensures standby { IsKeptBoard E.told E.fault_count self.now.standby }
    {
        self.primary.holds();
        self.standby.holds();
    }
}
