ghost use Rattle.std.specs.Prelude.{◌≡◌};
ghost use Rattle.lrp_records.specs.Place.{place_of};

use crate::presence::Presence;
use crate::state::LrpState;
use crash_backoff::Moment;
use diego_names::{Key, Name};

/// What is actual of one instance of a desired process.
#[derive(Clone, Copy, Debug, PartialEq, Eq)]
pub struct Actual {
    pub key: Key,
    pub presence: Presence,
    pub state: LrpState,
    /// How often it crashed in a row.
    pub count: u32,
    /// When the row last changed, but for a note that it could not be placed.
    pub since: Moment,
    /// Whether it could not be placed when that was last tried.
    pub error: bool,
    /// The domain of its process when the row was made; none where the process was not desired when
    /// a board of the first format was read.
    pub domain: Option<Name>,
}

impl Actual {
    /// What the rows are ordered by.
    pub fn place(&self) -> (Key, Presence)
        ensures { result ≡ place_of self.now }
    {
        (self.key, self.presence)
    }
}
