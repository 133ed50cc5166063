//! A call of the shared pair.
use crate::at_desk::AtDesk;
use crate::jobs::call_once;
use crate::shared_pair::{PairPass, SharedPair};
use bbs_model::Command;
use disk_trait::Disk;
use standby_board::{PairFault, PairReply};
use std::sync::Wait;

impl<D: Disk, E: Disk> SharedPair<D, E> {
    ghost use Rattle.std.specs.Prelude.{◌≡◌};
    ghost use Rattle.bbs_shared.specs.Passes.{seen_by, IsSame};
    ghost use Rattle.pair_desk.specs.Turns.{IsCalled};

    /// Waits for its turn, shows a number, and does a command on both boards behind all that was done
    /// before. Its reply and its fault are those of `Pair::call` there.
    pub fn call<R: Wait>(
        &self,
        rt: &R,
        pass: &mut PairPass<D, E>,
        fence: u64,
        command: Command,
    ) -> Result<PairReply, PairFault>
        requires pair { pass.old.place.table_id ≡ self.now.desk.table.shared.table_id }
        ensures same { IsSame pass.old pass.new }
        ensures called { IsCalled D.moment E.moment D.fault_count E.fault_count fence pass.old.number
            command (seen_by pass.old) (seen_by pass.new) result }
    {
        let by = pass.number();
        self.desk.turn(rt, pass, |at: &mut AtDesk<D, E>| {
            call_once(at, fence, by, command)
        })
    }
}
