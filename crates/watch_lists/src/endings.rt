//! Values by keys that may end. What has ended at a moment is found without a look at all values.
ghost use Rattle.std.specs.Prelude.{◌≡◌, ◌+◌, ◌<◌, ◌≤◌, ℕ, [], cond, true, nat_eq, Option, Some, OnOk, IfOk, IsOk};
ghost use Rattle.std.specs.List.{Contains, IsDistinct};
ghost use Rattle.std.specs.Map.{keys_of, lookup};
ghost use Rattle.std.specs.Option.{option_and_then};
ghost use Rattle.work_causes.specs.Causes as told;
ghost use Rattle.watch_lists.specs.Endings as kept;
ghost use Rattle.watch_lists.specs.Endings.{HasEnded};
ghost use Rattle.watch_lists.specs.Groups.{is_in, item_at};
ghost use Rattle.watch_lists.specs.Watched.{Finds, FindsAll};

use crate::calendar::Calendar;
use crate::entries::set;
use crate::tag::Tag;
use crate::watch::{forget, note};
use crash_backoff::Moment;
use diego_names::OutOfMemory;
use indexmap::IndexMap;
use std::alloc::Global;
use std::marker::Model;
use work_causes::Lease;

/// A value that may end.
pub trait Ending: Copy {
    // The second at which it ends, if it does.
    ghost ending: { Self → Option ℕ };

    /// The second at which it ends, if it does.
    fn ending(&self) -> Option<u64>
        ensures { result ≡ ending self.now };
}

impl Ending for Lease {
    ghost ending = { kept.end_of_lease };

    fn ending(&self) -> Option<u64> {
        Some(self.until)
    }
}

impl Ending for Option<u64> {
    ghost ending = { kept.end_of_domain };

    fn ending(&self) -> Option<u64> {
        *self
    }
}

/// Values by keys, and the keys by the seconds at which their values end. Clauses see the entries, which key is noted
/// under which second, and for how many values more there is room.
#[derive(Drop)]
pub struct Endings<K: Tag, V: Ending> {
    map: IndexMap<K, V>,
    ends: Calendar<K>,
}

impl<K: Tag, V: Ending> Model for Endings<K, V> {
    ghost use Rattle.std.specs.Prelude.{min};
    ghost use Rattle.indexmap.specs.IndexMap.{spare};
    ghost use Rattle.watch_lists.specs.Endings.{AreNoted, Ended};

    ghost Value = { Ended K V };

    ghost view = { λ a. record {
      entries = a.map.entries;
      ends = a.ends.items;
      spare = min (spare a.map) a.ends.spare;
    } };

    ghost invariant = { λ a. AreNoted K.eq V.ending a.map.entries a.ends.items };
}

/// Whether the second, if there is one, is reached.
pub(crate) fn is_reached(until: Option<u64>, now: Moment) -> bool
    ensures { result ≡ told.is_reached now until }
{
    match until {
        None => false,
        Some(until) => until <= u64::from(now.0),
    }
}

/// The second at which a value ends, if there is one that does.
fn ending_of<V: Ending>(value: &Option<V>) -> Option<u64>
    ensures { result ≡ option_and_then V.ending value.now }
{
    match value {
        None => None,
        Some(value) => value.ending(),
    }
}

impl<K: Tag, V: Ending> Endings<K, V> {
    /// No values. It takes no memory.
    pub fn new(alloc: Global) -> Self
        ensures { result.entries ≡ [] }
    {
        Endings {
            map: IndexMap::new(alloc),
            ends: Calendar::new(alloc),
        }
    }

    /// Makes room for `n` values more. It fails only for want of memory.
    pub fn reserve(&mut self, n: usize) -> Result<(), OutOfMemory>
        ensures entries { self.new.entries ≡ self.old.entries }
        ensures room { OnOk result (n ≤ self.new.spare) }
        ensures kept { self.old.spare ≤ self.new.spare }
        ensures succeeds { n ≤ self.old.spare → IsOk result }
    {
        self.map.reserve(n)?;
        self.ends.reserve(n)?;
        Ok(())
    }

    /// How many keys have a value.
    pub fn len(&self) -> usize
        ensures { IsDistinct K.eq (keys_of self.now.entries) }
    {
        self.map.len()
    }

    /// The value at a key.
    pub fn get(&self, key: &K) -> Option<V>
        ensures { result ≡ lookup (K.eq key.now) self.now.entries }
    {
        self.map.get(key).copied()
    }

    /// Makes this the value at the key, or takes the entry away if there is none.
    pub fn renew(&mut self, key: K, value: Option<V>)
        requires { 0 < self.old.spare }
        ensures entries { (q : K) → lookup (K.eq q) self.new.entries
            ≡ cond (K.eq key q) value (lookup (K.eq q) self.old.entries) }
        ensures spare { self.old.spare ≤ self.new.spare + 1 }
    {
        let old = self.map.get(&key).copied();
        forget(&mut self.ends, ending_of(&old), key);
        note(&mut self.ends, ending_of(&value), key);
        set(&mut self.map, key, value);
    }

    /// The same, in the memory that a new entry may want.
    pub fn add(&mut self, key: K, value: Option<V>) -> Result<(), OutOfMemory>
        ensures { OnOk result ((q : K) → lookup (K.eq q) self.new.entries
            ≡ cond (K.eq key q) value (lookup (K.eq q) self.old.entries)) }
    {
        self.reserve(1)?;
        self.renew(key, value);
        Ok(())
    }

    /// Adds a key, if its value has ended.
    fn pick(&self, found: &mut Vec<K>, now: Moment, key: K) -> Result<(), OutOfMemory>
        ensures found { OnOk result (Finds (HasEnded K.eq V.ending now self.now.entries)
            (λ k. k ≡ key) found.old.items found.new.items) }
        ensures free { ((k : K) → HasEnded K.eq V.ending now self.now.entries k → ⊥) → IsOk result }
    {
        if let Some(value) = self.map.get(&key) {
            if is_reached(value.ending(), now) {
                found.push(key)?;
            }
        }
        Ok(())
    }

    /// The same of the key of a second with this number.
    fn pick_number(
        &self,
        found: &mut Vec<K>,
        now: Moment,
        second: u64,
        number: usize,
    ) -> Result<(), OutOfMemory>
        ensures found { OnOk result (Finds (HasEnded K.eq V.ending now self.now.entries)
            (λ k. item_at nat_eq self.now.ends second number ≡ Some k) found.old.items found.new.items) }
        ensures free { ((k : K) → HasEnded K.eq V.ending now self.now.entries k → ⊥) → IsOk result }
    {
        match self.ends.get(second, number) {
            None => Ok(()),
            Some(key) => self.pick(found, now, key),
        }
    }

    /// Adds those keys under this second whose values have ended.
    fn pick_second(&self, found: &mut Vec<K>, now: Moment, second: u64) -> Result<(), OutOfMemory>
        ensures found { OnOk result (Finds (HasEnded K.eq V.ending now self.now.entries)
            (λ k. is_in nat_eq K.eq self.now.ends second k ≡ true) found.old.items found.new.items) }
        ensures free { ((k : K) → HasEnded K.eq V.ending now self.now.entries k → ⊥) → IsOk result }
    {
        for number in 0..self.ends.len(second) {
            self.pick_number(found, now, second, number)?;
        }
        Ok(())
    }

    /// Adds those keys under one of these seconds whose values have ended.
    fn pick_seconds(
        &self,
        found: &mut Vec<K>,
        now: Moment,
        seconds: &[u64],
    ) -> Result<(), OutOfMemory>
        ensures found { OnOk result (Finds (HasEnded K.eq V.ending now self.now.entries)
            (λ k. (m : ℕ) × Contains seconds.now m × (is_in nat_eq K.eq self.now.ends m k ≡ true))
            found.old.items found.new.items) }
        ensures free { ((k : K) → HasEnded K.eq V.ending now self.now.entries k → ⊥) → IsOk result }
    {
        for second in seconds {
            self.pick_second(found, now, *second)?;
        }
        Ok(())
    }

    /// The keys whose values have ended, some maybe more than once. It takes memory for what it finds alone.
    pub fn due(&self, alloc: Global, now: Moment) -> Result<Vec<K>, OutOfMemory>
        ensures found { IfOk result (λ found. FindsAll (HasEnded K.eq V.ending now self.now.entries)
            found.items) }
        ensures free { ((k : K) → HasEnded K.eq V.ending now self.now.entries k → ⊥) → IsOk result }
    {
        let mut found = Vec::new(alloc);
        let next = u64::from(now.0) + 1;
        self.pick_seconds(&mut found, now, self.ends.before(next))?;
        Ok(found)
    }
}
