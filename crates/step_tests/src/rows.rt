//! The row of an instance for the tests: each other row is this one with what differs.
ghost use Rattle.std.specs.Prelude.{◌≡◌, None};
ghost use Rattle.bbs_model.specs.Lrps.{new_row};

use crash_backoff::Moment;
use diego_names::{Key, Name};
use lrp_records::{Actual, LrpState, Presence};

// An instance that no container has, in no domain, since this second.
pub(crate) fn unclaimed(process: Name, index: u32, since: u32) -> Actual
    ensures { result ≡ new_row (record { process = process; index = index }) None
        (record { 0 = since }) }
{
    Actual {
        key: Key { process, index },
        presence: Presence::Ordinary,
        state: LrpState::Unclaimed,
        count: 0,
        since: Moment(since),
        error: false,
        domain: None,
    }
}
