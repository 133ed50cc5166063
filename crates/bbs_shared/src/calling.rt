//! A call of the shared board.
use crate::at_desk::AtDesk;
use crate::jobs::call_once;
use crate::shared_board::{BoardPass, SharedBoard};
use bbs_model::{CallFault, Command, Reply};
use disk_trait::Disk;
use std::sync::Wait;

impl<D: Disk> SharedBoard<D> {
    ghost use Rattle.std.specs.Prelude.{◌≡◌};
    ghost use Rattle.bbs_model.specs.PortView.{IsCalled};
    ghost use Rattle.bbs_shared.specs.Passes.{seen_by, IsSame};

    /// Waits for its turn, and does a command behind all that was done before. Its reply and its
    /// fault are those of `Board::call` there.
    pub fn call<R: Wait>(
        &self,
        rt: &R,
        pass: &mut BoardPass<D>,
        command: Command,
    ) -> Result<Reply, CallFault>
        requires board { pass.old.place.table_id ≡ self.now.desk.table.shared.table_id }
        ensures same { IsSame pass.old pass.new }
        ensures called { IsCalled pass.old.number (seen_by pass.old) command result
            (seen_by pass.new) }
    {
        let by = pass.number();
        self.desk
            .turn(rt, pass, |at: &mut AtDesk<D>| call_once(at, by, command))
    }
}
