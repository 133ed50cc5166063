//! How a pair is shared, and how it comes back to one hand.
use crate::at_desk::AtDesk;
use crate::shared_pair::{PairPass, SharedPair};
use diego_names::OutOfMemory;
use disk_trait::Disk;
use standby_board::Pair;
use std::alloc::Global;
use ticket_desk::Desk;

impl<D: Disk, E: Disk> SharedPair<D, E> {
    ghost use Rattle.std.specs.Prelude.{◌≡◌, ◌<◌, ◌≤◌, IfOk, IfErr};
    ghost use Rattle.bbs_shared.specs.Sharings.{AreHanded};
    ghost use Rattle.standby_board.specs.Pairs.{StandsPaired, FollowsRows};
    ghost use Rattle.ticket_desk.specs.Passes.{AreAll};
    ghost use Rattle.pair_desk.specs.Turns.{CameBack};

    /// Shares a pair among so many callers, 1 to 4,096, each of which gets a pass with a number of its
    /// own, counted from 0. The pair comes back as it was where memory runs out.
    pub fn start(
        alloc: Global,
        pair: Pair<D, E>,
        passes: u32,
    ) -> Result<(SharedPair<D, E>, Vec<PairPass<D, E>>), (Pair<D, E>, OutOfMemory)>
        requires { (0 < passes) × (passes ≤ 4096) }
        ensures pair { IfOk result (λ r. r.0.desk.table.shared.key.value ≡ pair) }
        ensures passes { IfOk result (λ r. AreHanded pair.primary
            r.0.desk.table.shared.table_id passes r.1.items) }
        ensures err { IfErr result (λ e. e.0 ≡ pair) }
    {
        match Desk::start(alloc, AtDesk::new(pair), passes) {
            Ok((desk, dealt)) => Ok((SharedPair { desk }, dealt)),
            Err((at, _)) => Err((at.into_pair(), OutOfMemory)),
        }
    }

    /// The pair, after all turns. `passes` are all that `start` gave, in order of number.
    pub fn close(self, passes: Vec<PairPass<D, E>>) -> Pair<D, E>
        requires { AreAll self.desk.table.shared.table_id passes.items }
        ensures back { CameBack self.desk.table.shared.key.value result passes.items }
        ensures stands { StandsPaired D.told E.told result }
        ensures rows { FollowsRows result }
    {
        let pair = self.into_desk().close(passes).into_pair();
        pair.holds();
        pair
    }
}
