//! A pair that answers clients, with the number of the primary's lease.
ghost use Rattle.std.specs.Prelude.{◌≡◌, ◌≤◌, length};

use bbs_model::Command;
use disk_trait::Disk;
use pair_runs::Server;
use standby_board::{Pair, PairFault, PairReply};

/// A pair, and the number that its calls show. No greater one was shown before, and the primary had done
/// nothing when the pair was started.
#[derive(Drop)]
pub(crate) struct Standing<D: Disk, E: Disk> {
    pub(crate) pair: Pair<D, E>,
    pub(crate) fence: u64,
    ghost shown: { pair.fence.greatest ≤ fence },
    ghost fresh: { length pair.primary_start.log ≡ 0 },
}

impl<D: Disk, E: Disk> Server for Standing<D, E> {
    ghost use Rattle.pair_top.specs.Keeping.{kept_pair, kept_pair_then};
    ghost use Rattle.pair_top.specs.Servers.{KeepsPair, pair_server};

    ghost view = { λ s. pair_server D.fault_count E.fault_count s.pair };

    ghost keeps = { λ s t. KeepsPair s.pair s.fence t.pair t.fence };

    ghost same = { λ s. kept_pair s.pair s.fence };

    ghost goes_on = { λ s t u. kept_pair_then s.pair t.pair u.pair s.fence t.fence u.fence };

    fn call(&mut self, by: u32, command: Command) -> Result<PairReply, PairFault> {
        self.pair.holds();
        self.pair.call(self.fence, by, command)
    }
}
