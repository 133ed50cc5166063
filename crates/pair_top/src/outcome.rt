//! What came of a pair.
ghost use Rattle.std.specs.Prelude.{◌≡◌, []};

use crate::ending::PairEnding;
use pair_runs::Account;
use std::alloc::Global;

/// How the program ended, the two disks, and what was done.
pub(crate) struct Outcome<D, E> {
    pub(crate) ending: PairEnding,
    pub(crate) primary: D,
    pub(crate) standby: E,
    pub(crate) account: Account,
}

/// What ended so and did nothing.
pub(crate) fn idle<D, E>(alloc: Global, ending: PairEnding, primary: D, standby: E) -> Outcome<D, E>
    ensures ending { result.ending ≡ ending }
    ensures disks { (result.primary ≡ primary) × (result.standby ≡ standby) }
    ensures account { result.account.answers ≡ [] }
{
    Outcome {
        ending,
        primary,
        standby,
        account: Account::new(alloc),
    }
}
