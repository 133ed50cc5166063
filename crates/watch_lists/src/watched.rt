//! Values by keys. The causes of each value are watched, so that what is due is found without a look at all values.
ghost use Rattle.std.specs.Prelude.{◌≡◌, ◌+◌, ◌*◌, ◌^◌, ◌<◌, ◌≤◌, ℕ, Option, [], cond, OnOk, IfOk, IsOk};
ghost use Rattle.std.specs.Map.{keys_of, lookup};
ghost use Rattle.std.specs.List.{IsDistinct};
ghost use Rattle.work_causes.specs.Causes.{until_of};
ghost use Rattle.work_causes.specs.declared.cause.Term.{Term as ATerm};
ghost use Rattle.watch_lists.specs.Watched.{ends_in, IsTimedBy, Shifts};

use crate::causes::{enter_value, leave_value};
use crate::entries::set;
use crate::leases::{Leases, past_times, while_times};
use crate::tag::Tag;
use crate::timed::Timed;
use crate::watch::Watch;
use diego_names::OutOfMemory;
use indexmap::IndexMap;
use std::alloc::Global;
use std::marker::Model;
use work_causes::{Cause, Term};

/// Values by keys, with their causes watched. Clauses see the entries, under which moments their causes are noted,
/// and for how many values more there is room.
#[derive(Drop)]
pub struct Watched<K: Tag, V: Timed> {
    pub(crate) map: IndexMap<K, V>,
    pub(crate) watch: Watch<Cause, K>,
}

impl<K: Tag, V: Timed> Model for Watched<K, V> {
    ghost use Rattle.std.specs.Prelude.{min, ◌/◌};
    ghost use Rattle.indexmap.specs.IndexMap.{spare};
    ghost use Rattle.watch_lists.specs.Watched.{AreWatched, Watched};

    ghost Value = { Watched K V };

    ghost view = { λ a. record {
      entries = a.map.entries;
      watch = a.watch;
      spare = min (spare a.map) (a.watch.spare / 3);
    } };

    ghost invariant = { λ a.
        AreWatched ⟦<Cause as PartialEq>⟧.eq K.eq V.causes a.map.entries a.watch };
}

impl<K: Tag, V: Timed> Watched<K, V> {
    /// No values. It takes no memory.
    pub fn new(alloc: Global) -> Self
        ensures entries { result.entries ≡ [] }
        ensures timed { (u : ATerm → Option ℕ) → IsTimedBy ⟦<Cause as PartialEq>⟧.eq K.eq u result.watch }
    {
        Watched {
            map: IndexMap::new(alloc),
            watch: Watch::new(alloc),
        }
    }

    /// Makes room for `n` values more. It fails only for want of memory.
    pub fn reserve(&mut self, n: usize) -> Result<(), OutOfMemory>
        requires { 3 * n < 2 ^ 64 }
        ensures entries { self.new.entries ≡ self.old.entries }
        ensures timed { (u : ATerm → Option ℕ) → IsTimedBy ⟦<Cause as PartialEq>⟧.eq K.eq u self.old.watch
            → IsTimedBy ⟦<Cause as PartialEq>⟧.eq K.eq u self.new.watch }
        ensures room { OnOk result (n ≤ self.new.spare) }
        ensures kept { self.old.spare ≤ self.new.spare }
        ensures succeeds { n ≤ self.old.spare → IsOk result }
    {
        self.map.reserve(n)?;
        self.watch.reserve(3 * n)?;
        Ok(())
    }

    /// How many keys have a value.
    pub fn len(&self) -> usize
        ensures { IsDistinct K.eq (keys_of self.now.entries) }
    {
        self.map.len()
    }

    /// The value at a key.
    pub fn get(&self, key: &K) -> Option<V>
        ensures { result ≡ lookup (K.eq key.now) self.now.entries }
    {
        self.map.get(key).copied()
    }

    /// Makes this the value at the key, or takes the entry away if there is none.
    pub fn renew(&mut self, leases: &Leases, key: K, value: Option<V>)
        requires { 0 < self.old.spare }
        ensures entries { (q : K) → lookup (K.eq q) self.new.entries
            ≡ cond (K.eq key q) value (lookup (K.eq q) self.old.entries) }
        ensures timed { IsTimedBy ⟦<Cause as PartialEq>⟧.eq K.eq (until_of (ends_in leases.now)) self.old.watch
            → IsTimedBy ⟦<Cause as PartialEq>⟧.eq K.eq (until_of (ends_in leases.now)) self.new.watch }
        ensures spare { self.old.spare ≤ self.new.spare + 1 }
    {
        let old = self.map.get(&key).copied();
        leave_value(&mut self.watch, leases, key, &old);
        enter_value(&mut self.watch, leases, key, &value);
        set(&mut self.map, key, value);
    }

    /// The same, in the memory that a new entry may want.
    pub fn add(&mut self, leases: &Leases, key: K, value: Option<V>) -> Result<(), OutOfMemory>
        ensures entries { OnOk result ((q : K) → lookup (K.eq q) self.new.entries
            ≡ cond (K.eq key q) value (lookup (K.eq q) self.old.entries)) }
        ensures timed { OnOk result
            (IsTimedBy ⟦<Cause as PartialEq>⟧.eq K.eq (until_of (ends_in leases.now)) self.old.watch
            → IsTimedBy ⟦<Cause as PartialEq>⟧.eq K.eq (until_of (ends_in leases.now)) self.new.watch) }
    {
        self.reserve(1)?;
        self.renew(leases, key, value);
        Ok(())
    }

    /// The term ends at another second from now on.
    pub fn shift(&mut self, term: &Term, old: Option<u64>, new: Option<u64>)
        requires { 0 < self.old.spare }
        ensures entries { self.new.entries ≡ self.old.entries }
        ensures timed { Shifts ⟦<Cause as PartialEq>⟧.eq K.eq term.now new self.old.watch self.new.watch }
        ensures spare { self.old.spare ≤ self.new.spare + 1 }
    {
        self.watch
            .retime(Cause::Past(*term), past_times(old), past_times(new));
        self.watch
            .retime(Cause::While(*term), while_times(old), while_times(new));
    }
}
