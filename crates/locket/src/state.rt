//! What a locket holds.
ghost use Rattle.std.specs.Prelude.{◌≡◌};
ghost use Rattle.locket.specs.Lives.{unused};

use crash_backoff::Moment;
use diego_names::Name;

/// A lease of one holder.
#[derive(Clone, Copy, Debug, PartialEq, Eq)]
pub struct Lease {
    pub owner: Name,
    /// The number of the lease, from 1 on. No other lease of the locket has it.
    pub fence: u64,
    /// The moment from which it holds no more, in seconds.
    pub until: u64,
}

/// The state of a locket.
#[derive(Clone, Copy, Debug, PartialEq, Eq)]
pub struct LockState {
    /// The fence that was given last, and 0 before the first.
    pub last: u64,
    /// The moment of the last change.
    pub seen: Moment,
    /// The lease that was given last, unless it was released. It may have run out.
    pub held: Option<Lease>,
    /// How many changes there were in the locket's life.
    pub count: u32,
}

impl LockState {
    /// The state of a locket that was never used.
    pub(crate) fn unused() -> LockState
        ensures { result ≡ unused }
    {
        LockState {
            last: 0,
            seen: Moment(0),
            held: None,
            count: 0,
        }
    }
}
