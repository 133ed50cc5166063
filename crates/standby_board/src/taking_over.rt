//! How the standby takes over, and how a pair is closed.
ghost use Rattle.std.specs.Prelude.{◌≡◌, ◌<◌, ◌↔◌, IsOk, IfOk, IfErr};
ghost use Rattle.standby_board.specs.Ends.{IsTaken};
ghost use Rattle.standby_board.specs.Pairs.{FollowsRows, IsKeptBoard};

use crate::answers::StaleFence;
use crate::pair::Pair;
use bbs_board::Closed;
use disk_trait::Disk;
use fenced_board::Fenced;

/// The board that took over, and what is left of the one before it.
pub struct Taken<D: Disk, E: Disk> {
    /// The standby, behind a fence of its own.
    pub board: Fenced<E>,
    /// The primary, which was closed.
    pub old: Closed<D>,
}

/// What is left of a pair that was closed.
pub struct ClosedPair<D, E> {
    pub primary: Closed<D>,
    pub standby: Closed<E>,
}

impl<D: Disk, E: Disk> Pair<D, E> {
    /// Makes the standby the board, for whoever shows this number or a greater one, and closes the
    /// primary. A number that isn't above all that were shown is refused, and the pair comes back as it
    /// was. It takes no memory and makes no device call. What is missing on the standby stays missing.
    pub fn take_over(self, fence: u64) -> Result<Taken<D, E>, (Pair<D, E>, StaleFence)>
        ensures taken { IsOk result ↔ (self.fence.greatest < fence) }
        ensures stale { IfErr result
            (λ e. (e.0 ≡ self) × (e.1.greatest ≡ self.fence.greatest)) }
        ensures board { IfOk result (λ t. IsTaken fence self t.board) }
        ensures rows { FollowsRows self }
        ensures old { IfOk result (λ t. (t.old.disk ≡ self.primary.disk)
            × (t.old.log.items ≡ self.primary.log) × (t.old.marks.items ≡ self.primary.marks)) }
        ensures kept { IsKeptBoard D.told D.fault_count self.primary }
    {
        self.holds();
        if fence <= self.fence.greatest() {
            let stale = StaleFence {
                greatest: self.fence.greatest(),
            };
            return Err((self, stale));
        }
        let Pair {
            alloc,
            primary,
            standby,
            fence: _,
            missing: _,
            primary_start: _,
            standby_start: _,
        } = self;
        Ok(Taken {
            board: Fenced::new(alloc, standby, fence),
            old: primary.close(),
        })
    }

    /// Closes both boards. It takes no memory. What is missing on the standby stays missing.
    pub fn close(self) -> ClosedPair<D, E>
        ensures primary { (result.primary.disk ≡ self.primary.disk)
            × (result.primary.log.items ≡ self.primary.log)
            × (result.primary.marks.items ≡ self.primary.marks) }
        ensures standby { (result.standby.disk ≡ self.standby.disk)
            × (result.standby.log.items ≡ self.standby.log)
            × (result.standby.marks.items ≡ self.standby.marks) }
    {
        let Pair {
            alloc: _,
            primary,
            standby,
            fence: _,
            missing: _,
            primary_start: _,
            standby_start: _,
        } = self;
        ClosedPair {
            primary: primary.close(),
            standby: standby.close(),
        }
    }
}
