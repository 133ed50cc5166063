//! The leases of cells and the ends of domains, and when causes hold by them.
ghost use Rattle.std.specs.Prelude.{◌≡◌, option_to_list, None};
ghost use Rattle.std.specs.Option.{option_copied};
ghost use Rattle.work_causes.specs.Causes as told;
ghost use Rattle.watch_lists.specs.Watched.{ends_in, start_of, start_while, stop_of};

use crate::endings::{Endings, is_reached};
use crate::watch::Times;
use crash_backoff::Moment;
use diego_names::Name;
use work_causes::{Cause, Causes, Lease, Term};

/// The leases of cells, and when domains end, by their names.
#[derive(Drop)]
pub struct Leases {
    pub cells: Endings<Name, Lease>,
    pub domains: Endings<Name, Option<u64>>,
}

/// The second at which the lease under an epoch ends: 0 if there is none.
pub(crate) fn end_under(lease: Option<Lease>, epoch: u64) -> u64
    ensures { result ≡ told.end_under lease epoch }
{
    match lease {
        Some(lease) if lease.epoch == epoch => lease.until,
        Some(_) => 0,
        None => 0,
    }
}

fn is_of_other(lease: Option<Lease>, epoch: u64) -> bool
    ensures { result ≡ told.is_of_other lease epoch }
{
    match lease {
        None => false,
        Some(lease) => lease.epoch != epoch,
    }
}

/// The times of what holds from the end of a term on.
pub(crate) fn past_times(until: Option<u64>) -> Times
    ensures start { result.start ≡ until }
    ensures stop { result.stop ≡ None }
{
    Times {
        start: until,
        stop: None,
    }
}

/// The times of what holds up to the end of a term: always, if it never ends.
pub(crate) fn while_times(until: Option<u64>) -> Times
    ensures start { result.start ≡ start_while until }
    ensures stop { result.stop ≡ until }
{
    match until {
        None => Times {
            start: Some(0),
            stop: None,
        },
        Some(until) => Times {
            start: None,
            stop: Some(until),
        },
    }
}

impl Leases {
    fn until(&self, term: &Term) -> Option<u64>
        ensures { result ≡ told.until_of (ends_in self.now) term.now }
    {
        match term {
            Term::OfEpoch { cell, epoch } => { Some(end_under(self.cells.get(cell), *epoch)) }
            Term::OfDomain { name } => self.domains.get(name).unwrap_or(Some(0)),
        }
    }

    /// When the cause holds. What holds while a cell has a row of another epoch is looked at at any moment.
    pub(crate) fn times(&self, cause: &Cause) -> Times
        ensures start { result.start ≡ start_of (told.until_of (ends_in self.now)) cause.now }
        ensures stop { result.stop ≡ stop_of (told.until_of (ends_in self.now)) cause.now }
    {
        match cause {
            Cause::Always => past_times(Some(0)),
            Cause::From(second) => past_times(Some(*second)),
            Cause::Past(term) => past_times(self.until(term)),
            Cause::While(term) => while_times(self.until(term)),
            Cause::Anew { .. } => past_times(Some(0)),
        }
    }

    /// Whether the cause holds.
    pub fn holds(&self, now: Moment, cause: &Cause) -> bool
        ensures { result ≡ told.holds_by (ends_in self.now) now cause.now }
    {
        match cause {
            Cause::Always => true,
            Cause::From(second) => *second <= u64::from(now.0),
            Cause::Past(term) => is_reached(self.until(term), now),
            Cause::While(term) => !is_reached(self.until(term), now),
            Cause::Anew { cell, epoch } => is_of_other(self.cells.get(cell), *epoch),
        }
    }

    fn may_hold(&self, now: Moment, cause: &Option<Cause>) -> bool
        ensures { result ≡ told.any_holds_by (ends_in self.now) now (option_to_list cause.now) }
    {
        match cause {
            None => false,
            Some(cause) => self.holds(now, cause),
        }
    }

    /// Whether one of the causes holds.
    pub fn any_holds(&self, now: Moment, causes: &Causes) -> bool
        ensures { result ≡ told.any_holds_by (ends_in self.now) now (told.listed causes.now) }
    {
        self.may_hold(now, &causes.first)
            || self.may_hold(now, &causes.second)
            || self.may_hold(now, &causes.third)
    }
}
