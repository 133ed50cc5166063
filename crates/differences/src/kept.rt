//! What is kept of a board's rows: a map for each kind of entry.
ghost use Rattle.std.specs.Prelude.{◌≡◌, ◌≤◌, OnOk, IsOk};
ghost use Rattle.std.specs.Option.{option_copied};
ghost use Rattle.work_causes.specs.Causes as told;
ghost use Rattle.differences.specs.Noted.{ends_by, transitions_in};

use crash_backoff::Moment;
use diego_names::{Key, Name, OutOfMemory};
use indexmap::IndexMap;
use lrp_records::Presence;
use std::marker::Model;
use work_causes::{Cause, Causes, Lease, Term};

/// The causes of places.
pub(crate) type Places = IndexMap<(Key, Presence), Causes>;

/// How many instances processes want.
pub(crate) type Counts = IndexMap<Name, u32>;

/// The leases of cells, and when domains end, by their names.
#[derive(Drop)]
pub(crate) struct Leases {
    pub(crate) cells: IndexMap<Name, Lease>,
    pub(crate) domains: IndexMap<Name, Option<u64>>,
}

/// All that is kept. Each map has at most as many entries as the board has rows and wanted instances.
#[derive(Drop)]
pub(crate) struct Kept {
    pub(crate) places: Places,
    pub(crate) tasks: IndexMap<Name, Cause>,
    pub(crate) wanted: Counts,
    pub(crate) leases: Leases,
}

impl Model for Kept {
    ghost use Rattle.indexmap.specs.IndexMap.{spare};
    ghost use Rattle.differences.specs.Noted.{Keeping};

    ghost Value = { Keeping };

    ghost view = { λ a. record {
      places = a.places.entries;
      tasks = a.tasks.entries;
      wanted = a.wanted.entries;
      cells = a.leases.cells.entries;
      domains = a.leases.domains.entries;
      room = record {
        places = spare a.places;
        tasks = spare a.tasks;
        wanted = spare a.wanted;
        cells = spare a.leases.cells;
        domains = spare a.leases.domains;
      };
    } };
}

/// The second at which the lease under an epoch ends: 0 if there is none.
fn end_under(lease: Option<&Lease>, epoch: u64) -> u64
    ensures { result ≡ told.end_under (option_copied lease.entry) epoch }
{
    match lease {
        Some(lease) if lease.epoch == epoch => lease.until,
        Some(_) => 0,
        None => 0,
    }
}

fn is_reached(until: Option<u64>, now: Moment) -> bool
    ensures { result ≡ told.is_reached now until }
{
    match until {
        None => false,
        Some(until) => until <= u64::from(now.0),
    }
}

fn is_of_other(lease: Option<&Lease>, epoch: u64) -> bool
    ensures { result ≡ told.is_of_other (option_copied lease.entry) epoch }
{
    match lease {
        None => false,
        Some(lease) => lease.epoch != epoch,
    }
}

impl Leases {
    fn until(&self, term: &Term) -> Option<u64>
        ensures { result ≡ told.until_of
            (ends_by self.now.cells.entries self.now.domains.entries) term.now }
    {
        match term {
            Term::OfEpoch { cell, epoch } => Some(end_under(self.cells.get(cell), *epoch)),
            Term::OfDomain { name } => self.domains.get(name).copied().unwrap_or(Some(0)),
        }
    }

    fn is_over(&self, now: Moment, term: &Term) -> bool
        ensures { result ≡ told.is_over
            (ends_by self.now.cells.entries self.now.domains.entries) now term.now }
    {
        is_reached(self.until(term), now)
    }

    /// Whether the cause holds.
    pub(crate) fn holds(&self, now: Moment, cause: &Cause) -> bool
        ensures { result ≡ told.holds_by
            (ends_by self.now.cells.entries self.now.domains.entries) now cause.now }
    {
        match cause {
            Cause::Always => true,
            Cause::From(second) => *second <= u64::from(now.0),
            Cause::Past(term) => self.is_over(now, term),
            Cause::While(term) => !self.is_over(now, term),
            Cause::Anew { cell, epoch } => is_of_other(self.cells.get(cell), *epoch),
        }
    }
}

impl Kept {
    /// Makes room for `n` transitions more. It fails only for want of memory.
    pub(crate) fn reserve(&mut self, n: u32) -> Result<(), OutOfMemory>
        ensures stays { self.new ≡ record self.old { room = self.new.room } }
        ensures room { OnOk result (n ≤ transitions_in self.new.room) }
        ensures kept { transitions_in self.old.room ≤ transitions_in self.new.room }
        ensures succeeds { n ≤ transitions_in self.old.room → IsOk result }
    {
        let n = n as usize;
        self.places.reserve(2000 * n)?;
        self.tasks.reserve(2 * n)?;
        self.wanted.reserve(2 * n)?;
        self.leases.cells.reserve(2 * n)?;
        self.leases.domains.reserve(2 * n)?;
        Ok(())
    }
}
