//! What is done to the pair while a turn is on.
ghost use Rattle.std.specs.Prelude.{◌≡◌, ◌++◌, ◌<◌, ◌^◌, length};
ghost use Rattle.standby_board.specs.Calls.{gained};
ghost use Rattle.pair_desk.specs.Standing.{log_of, origin_of};
ghost use Rattle.pair_desk.specs.Turns.{IsSoleCall};

use crate::at_desk::AtDesk;
use bbs_model::Command;
use disk_trait::Disk;
use standby_board::{PairFault, PairReply};

pub(crate) fn call_once<D: Disk, E: Disk>(
    at: &mut AtDesk<D, E>,
    fence: u64,
    by: u32,
    command: Command,
) -> Result<PairReply, PairFault>
    ensures call { IsSoleCall D.moment E.moment D.fault_count E.fault_count fence by command
        at.old at.new result }
    ensures log { log_of at.new ≡ log_of at.old ++ gained result by command }
    ensures origin { origin_of at.new ≡ origin_of at.old }
    ensures few { length (log_of at.new) < 2 ^ 64 }
{
    let end = at.pair.call(fence, by, command);
    let _place = at.pair.log().len();
    end
}
