//! The board that took over, as it answers clients.
ghost use Rattle.std.specs.Prelude.{◌≡◌, ◌≤◌};
ghost use Rattle.pair_top.specs.Servers.{end_of};

use bbs_model::{CallFault, Command};
use disk_trait::Disk;
use fenced_board::{Fenced, FencedReply};
use pair_runs::Server;
use standby_board::{PairFault, PairReply};

/// The board that took over, and the number that its calls show. No greater one was shown before.
#[derive(Drop)]
pub(crate) struct Alone<E: Disk> {
    pub(crate) board: Fenced<E>,
    pub(crate) fence: u64,
    ghost shown: { board.fence.greatest ≤ fence },
}

/// The end of a call behind a fence, as that of a pair's call.
fn end_of(end: Result<FencedReply, CallFault>) -> Result<PairReply, PairFault>
    ensures { result ≡ end_of end }
{
    match end {
        Ok(FencedReply::Reply(reply)) => Ok(PairReply::Reply(reply)),
        Ok(FencedReply::StaleFence { greatest }) => Ok(PairReply::StaleFence { greatest }),
        Err(CallFault::Disk { place }) => Err(PairFault::Disk { place }),
        Err(CallFault::OutOfMemory) => Err(PairFault::OutOfMemory),
    }
}

impl<E: Disk> Server for Alone<E> {
    ghost use Rattle.pair_top.specs.Keeping.{kept_alone, kept_alone_then};
    ghost use Rattle.pair_top.specs.Servers.{KeepsAlone, alone_server};

    ghost view = { λ s. alone_server E.fault_count s.board };

    ghost keeps = { λ s t. KeepsAlone E.told s.board s.fence t.board t.fence };

    ghost same = { λ s. kept_alone E.told s.board s.fence };

    ghost goes_on = { λ s t u. kept_alone_then E.told s.board t.board u.board s.fence t.fence u.fence };

    fn call(&mut self, by: u32, command: Command) -> Result<PairReply, PairFault> {
        end_of(self.board.call(self.fence, by, command))
    }
}
