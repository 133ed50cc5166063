//! How a script of lock commands ended, and what it did.
ghost use Rattle.std.specs.Prelude.{◌≡◌};
ghost use Rattle.lock_runs.specs.Runs.{HasNoLocks};

use locket::LockItem;
use program_ends::Ending;
use std::alloc::Global;

/// How a script of lock commands ended, and what it did.
#[derive(Drop)]
pub struct LocksEnded {
    pub ending: Ending,
    /// The items that it added to the locket's log.
    pub locks: Vec<LockItem>,
    /// The disk's clock at the end of the call of each item.
    pub marks: Vec<u64>,
}

/// What ended so and ran no line.
pub(crate) fn unlocked(alloc: Global, ending: Ending) -> LocksEnded
    ensures ending { result.ending ≡ ending }
    ensures none { HasNoLocks result.locks.items result.marks.items }
{
    LocksEnded {
        ending,
        locks: Vec::new(alloc),
        marks: Vec::new(alloc),
    }
}
