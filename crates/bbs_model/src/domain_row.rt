ghost use Rattle.std.specs.Prelude.{◌≡◌};
ghost use Rattle.bbs_model.specs.Domains.{holds_at};

use crash_backoff::Moment;
use diego_names::Name;

/// A client's word that its list of processes in a domain is whole, and for how long. Where a domain has
/// no such row, or one that has ended, nobody vouches for the list.
#[derive(Clone, Copy, Debug, PartialEq, Eq)]
pub struct DomainRow {
    pub domain: Name,
    /// The second at which the word ends; none for one that never ends.
    pub until: Option<u64>,
}

impl DomainRow {
    /// Whether the word still holds.
    pub fn holds_at(&self, now: Moment) -> bool
        ensures { result ≡ holds_at self.now now }
    {
        match self.until {
            None => true,
            Some(until) => u64::from(now.0) < until,
        }
    }
}
