//! The keys of which a cause holds: those whose causes are noted before a moment, or up to it.
ghost use Rattle.std.specs.Prelude.{◌≡◌, ℕ, true, nat_eq, Some, OnOk, IfOk, IsOk};
ghost use Rattle.std.specs.List.{Contains};
ghost use Rattle.work_causes.specs.Causes.{until_of};
ghost use Rattle.work_causes.specs.declared.cause.Cause.{Cause as ACause};
ghost use Rattle.watch_lists.specs.Groups.{is_in, item_at};
ghost use Rattle.watch_lists.specs.Watched.{ends_in, Finds, FindsAll, IsDue, IsTimedBy, IsUnder};

use crate::calendar::Calendar;
use crate::leases::Leases;
use crate::tag::Tag;
use crate::timed::Timed;
use crate::watched::Watched;
use crash_backoff::Moment;
use diego_names::OutOfMemory;
use std::alloc::Global;
use work_causes::Cause;

impl<K: Tag, V: Timed> Watched<K, V> {
    /// Adds a key, if a cause of its value holds.
    fn pick(
        &self,
        found: &mut Vec<K>,
        leases: &Leases,
        now: Moment,
        key: K,
    ) -> Result<(), OutOfMemory>
        ensures found { OnOk result (Finds
            (IsDue K.eq V.causes (ends_in leases.now) now self.now.entries)
            (λ k. k ≡ key) found.old.items found.new.items) }
        ensures free { ((k : K) → IsDue K.eq V.causes (ends_in leases.now) now self.now.entries k → ⊥)
            → IsOk result }
    {
        if let Some(value) = self.map.get(&key) {
            if leases.any_holds(now, &value.causes()) {
                found.push(key)?;
            }
        }
        Ok(())
    }

    /// The same of the key of a cause with this number.
    fn pick_number(
        &self,
        found: &mut Vec<K>,
        leases: &Leases,
        now: Moment,
        cause: &Cause,
        number: usize,
    ) -> Result<(), OutOfMemory>
        ensures found { OnOk result (Finds
            (IsDue K.eq V.causes (ends_in leases.now) now self.now.entries)
            (λ k. item_at ⟦<Cause as PartialEq>⟧.eq self.now.watch.keys cause.now number ≡ Some k)
            found.old.items found.new.items) }
        ensures free { ((k : K) → IsDue K.eq V.causes (ends_in leases.now) now self.now.entries k → ⊥)
            → IsOk result }
    {
        match self.watch.keys.get(cause, number) {
            None => Ok(()),
            Some(key) => self.pick(found, leases, now, key),
        }
    }

    /// Adds those keys with this cause of which a cause holds.
    fn pick_cause(
        &self,
        found: &mut Vec<K>,
        leases: &Leases,
        now: Moment,
        cause: &Cause,
    ) -> Result<(), OutOfMemory>
        ensures found { OnOk result (Finds
            (IsDue K.eq V.causes (ends_in leases.now) now self.now.entries)
            (λ k. is_in ⟦<Cause as PartialEq>⟧.eq K.eq self.now.watch.keys cause.now k ≡ true)
            found.old.items found.new.items) }
        ensures free { ((k : K) → IsDue K.eq V.causes (ends_in leases.now) now self.now.entries k → ⊥)
            → IsOk result }
    {
        for number in 0..self.watch.keys.len(cause) {
            self.pick_number(found, leases, now, cause, number)?;
        }
        Ok(())
    }

    /// The same of the cause of a moment with this number.
    fn pick_noted(
        &self,
        found: &mut Vec<K>,
        leases: &Leases,
        now: Moment,
        calendar: &Calendar<Cause>,
        moment: u64,
        number: usize,
    ) -> Result<(), OutOfMemory>
        ensures found { OnOk result (Finds
            (IsDue K.eq V.causes (ends_in leases.now) now self.now.entries)
            (λ k. (c : ACause) × (item_at nat_eq calendar.now.items moment number ≡ Some c)
            × (is_in ⟦<Cause as PartialEq>⟧.eq K.eq self.now.watch.keys c k ≡ true))
            found.old.items found.new.items) }
        ensures free { ((k : K) → IsDue K.eq V.causes (ends_in leases.now) now self.now.entries k → ⊥)
            → IsOk result }
    {
        match calendar.get(moment, number) {
            None => Ok(()),
            Some(cause) => self.pick_cause(found, leases, now, &cause),
        }
    }

    /// Adds those keys of which a cause holds and a cause is noted under this moment.
    fn pick_moment(
        &self,
        found: &mut Vec<K>,
        leases: &Leases,
        now: Moment,
        calendar: &Calendar<Cause>,
        moment: u64,
    ) -> Result<(), OutOfMemory>
        ensures found { OnOk result (Finds
            (IsDue K.eq V.causes (ends_in leases.now) now self.now.entries)
            (IsUnder ⟦<Cause as PartialEq>⟧.eq K.eq self.now.watch.keys calendar.now.items moment)
            found.old.items found.new.items) }
        ensures free { ((k : K) → IsDue K.eq V.causes (ends_in leases.now) now self.now.entries k → ⊥)
            → IsOk result }
    {
        for number in 0..calendar.len(moment) {
            self.pick_noted(found, leases, now, calendar, moment, number)?;
        }
        Ok(())
    }

    /// Adds those keys of which a cause holds and a cause is noted under one of these moments.
    fn pick_moments(
        &self,
        found: &mut Vec<K>,
        leases: &Leases,
        now: Moment,
        calendar: &Calendar<Cause>,
        moments: &[u64],
    ) -> Result<(), OutOfMemory>
        ensures found { OnOk result (Finds
            (IsDue K.eq V.causes (ends_in leases.now) now self.now.entries)
            (λ k. (m : ℕ) × Contains moments.now m
            × IsUnder ⟦<Cause as PartialEq>⟧.eq K.eq self.now.watch.keys calendar.now.items m k)
            found.old.items found.new.items) }
        ensures free { ((k : K) → IsDue K.eq V.causes (ends_in leases.now) now self.now.entries k → ⊥)
            → IsOk result }
    {
        for moment in moments {
            self.pick_moment(found, leases, now, calendar, *moment)?;
        }
        Ok(())
    }

    /// The keys of which a cause holds, some more than once. It takes memory for what it finds alone.
    pub fn due(&self, alloc: Global, leases: &Leases, now: Moment) -> Result<Vec<K>, OutOfMemory>
        requires { IsTimedBy ⟦<Cause as PartialEq>⟧.eq K.eq (until_of (ends_in leases.now)) self.now.watch }
        ensures found { IfOk result (λ found. FindsAll
            (IsDue K.eq V.causes (ends_in leases.now) now self.now.entries) found.items) }
        ensures free { ((k : K) → IsDue K.eq V.causes (ends_in leases.now) now self.now.entries k → ⊥)
            → IsOk result }
    {
        let mut found = Vec::new(alloc);
        let next = u64::from(now.0) + 1;
        let starts = &self.watch.starts;
        self.pick_moments(&mut found, leases, now, starts, starts.before(next))?;
        let stops = &self.watch.stops;
        self.pick_moments(&mut found, leases, now, stops, stops.since(next))?;
        Ok(found)
    }
}
