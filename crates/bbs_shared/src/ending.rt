//! How a board is shared, and how it comes back to one hand.
use crate::at_desk::AtDesk;
use crate::shared_board::{BoardPass, SharedBoard};
use bbs_board::Board;
use diego_names::OutOfMemory;
use disk_trait::Disk;
use std::alloc::Global;
use ticket_desk::Desk;

impl<D: Disk> SharedBoard<D> {
    ghost use Rattle.std.specs.Prelude.{◌≡◌, ◌<◌, ◌≤◌, IfOk, IfErr};
    ghost use Rattle.ticket_desk.specs.Passes.{AreAll};
    ghost use Rattle.bbs_shared.specs.Sharings.{AreHanded, CameBack};

    /// Shares a board among so many callers, 1 to 4,096, each of which gets a pass with a number of
    /// its own, counted from 0. The board comes back as it was where memory runs out.
    pub fn start(
        alloc: Global,
        board: Board<D>,
        passes: u32,
    ) -> Result<(SharedBoard<D>, Vec<BoardPass<D>>), (Board<D>, OutOfMemory)>
        requires { (0 < passes) × (passes ≤ 4096) }
        ensures board { IfOk result (λ r. r.0.desk.table.shared.key.value.start ≡ board) }
        ensures passes { IfOk result (λ r. AreHanded board
            r.0.desk.table.shared.table_id passes r.1.items) }
        ensures err { IfErr result (λ e. e.0 ≡ board) }
    {
        match Desk::start(alloc, AtDesk::new(board), passes) {
            Ok((desk, dealt)) => Ok((SharedBoard { desk }, dealt)),
            Err((at, _)) => Err((at.into_board(), OutOfMemory)),
        }
    }

    /// The board, after all turns. `passes` are all that `start` gave, in order of number.
    pub fn close(self, passes: Vec<BoardPass<D>>) -> Board<D>
        requires { AreAll self.desk.table.shared.table_id passes.items }
        ensures { CameBack D.told self.desk.table.shared.key.value.start result passes.items }
    {
        self.into_desk().close(passes).into_board()
    }
}
