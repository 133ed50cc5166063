//! What of that which is kept is due at a moment, found without a reading of rows.
ghost use Rattle.std.specs.Prelude.{◌≡◌, ◌<◌, ◌++◌, List, [], option_to_list, slice_get, OnOk, IfOk, IsOk};
ghost use Rattle.indexmap.specs.IndexMap.{index_map_len};
ghost use Rattle.row_tables.specs.Table.{IsKeyOrder, table};
ghost use Rattle.work_causes.specs.Causes.{any_holds_by, listed};
ghost use Rattle.work_causes.specs.declared.cause.Cause.{Cause as ACause};
ghost use Rattle.differences.specs.Due.{AreUnique, causes_of_end, causes_of_lease, due_in, keys_due, one_cause, subjects_in};
ghost use Rattle.differences.specs.Noted.{ends_by, noted_of};

use crate::kept::{Kept, Leases};
use crash_backoff::Moment;
use diego_names::{Key, Name, OutOfMemory};
use indexmap::IndexMap;
use lrp_records::Presence;
use std::alloc::Global;
use std::hash::Hash;
use std::marker::Model;
use work_causes::{Cause, Causes, Lease};

/// What is kept of something that may be due.
trait Timed: Copy {
    // Its causes.
    ghost causes: { Self → List ACause };

    /// Whether one of the causes holds.
    fn is_due(&self, leases: &Leases, now: Moment) -> bool
        ensures { result ≡ any_holds_by
            (ends_by leases.now.cells.entries leases.now.domains.entries) now (causes self.now) };
}

impl Timed for Lease {
    ghost causes = { causes_of_lease };

    fn is_due(&self, _leases: &Leases, now: Moment) -> bool {
        self.until <= u64::from(now.0)
    }
}

impl Timed for Option<u64> {
    ghost causes = { causes_of_end };

    fn is_due(&self, _leases: &Leases, now: Moment) -> bool {
        match *self {
            None => false,
            Some(until) => until <= u64::from(now.0),
        }
    }
}

impl Timed for Cause {
    ghost causes = { one_cause };

    fn is_due(&self, leases: &Leases, now: Moment) -> bool {
        leases.holds(now, self)
    }
}

fn may_hold(leases: &Leases, now: Moment, cause: &Option<Cause>) -> bool
    ensures { result ≡ any_holds_by (ends_by leases.now.cells.entries leases.now.domains.entries)
        now (option_to_list cause.now) }
{
    match cause {
        None => false,
        Some(cause) => leases.holds(now, cause),
    }
}

impl Timed for Causes {
    ghost causes = { listed };

    fn is_due(&self, leases: &Leases, now: Moment) -> bool {
        may_hold(leases, now, &self.first)
            || may_hold(leases, now, &self.second)
            || may_hold(leases, now, &self.third)
    }
}

/// Adds the key of an entry, if the entry is due.
fn pick<K: Copy + Eq + Hash, V: Timed>(
    found: &mut Vec<K>,
    map: &IndexMap<K, V>,
    number: usize,
    leases: &Leases,
    now: Moment,
) -> Result<(), OutOfMemory>
    requires { number < index_map_len map.now }
    ensures found { OnOk result (found.new.items ≡ found.old.items
        ++ keys_due V.causes (ends_by leases.now.cells.entries leases.now.domains.entries) now
        (option_to_list (slice_get map.now.entries number))) }
    ensures free { keys_due V.causes (ends_by leases.now.cells.entries leases.now.domains.entries)
        now (option_to_list (slice_get map.now.entries number)) ≡ [] → IsOk result }
{
    if let Some((key, value)) = map.get_index(number) {
        if value.is_due(leases, now) {
            found.push(*key)?;
        }
    }
    Ok(())
}

/// The keys of the entries that are due, in the order of the map.
fn due_entries<K: Copy + Eq + Hash, V: Timed>(
    alloc: Global,
    map: &IndexMap<K, V>,
    leases: &Leases,
    now: Moment,
) -> Result<Vec<K>, OutOfMemory>
    ensures found { IfOk result (λ found. found.items ≡ keys_due V.causes
        (ends_by leases.now.cells.entries leases.now.domains.entries) now map.now.entries) }
    ensures free { keys_due V.causes (ends_by leases.now.cells.entries leases.now.domains.entries)
        now map.now.entries ≡ [] → IsOk result }
{
    let mut found = Vec::new(alloc);
    for number in 0..map.len() {
        pick(&mut found, map, number, leases, now)?;
    }
    Ok(found)
}

/// These keys, each once and in order.
fn in_order<K: Ord + Drop>(mut keys: Vec<K>) -> Vec<K>
    requires { IsKeyOrder K.cmp }
    ensures { result.items ≡ table K.cmp (λ k. k) keys.items }
{
    keys.sort_unstable();
    keys.dedup();
    keys
}

/// What is due, of each kind in order.
#[derive(Drop)]
pub(crate) struct Due {
    cells: Vec<Name>,
    domains: Vec<Name>,
    places: Vec<(Key, Presence)>,
    tasks: Vec<Name>,
}

impl Model for Due {
    ghost use Rattle.differences.specs.Due.{DueKeys};

    ghost Value = { DueKeys };

    ghost view = { λ a. record {
      cells = a.cells.items;
      domains = a.domains.items;
      places = a.places.items;
      tasks = a.tasks.items;
    } };
}

impl Due {
    pub(crate) fn cells(&self) -> &[Name]
        ensures { result.now ≡ self.now.cells }
    {
        self.cells.as_slice()
    }

    pub(crate) fn domains(&self) -> &[Name]
        ensures { result.now ≡ self.now.domains }
    {
        self.domains.as_slice()
    }

    pub(crate) fn places(&self) -> &[(Key, Presence)]
        ensures { result.now ≡ self.now.places }
    {
        self.places.as_slice()
    }

    pub(crate) fn tasks(&self) -> &[Name]
        ensures { result.now ≡ self.now.tasks }
    {
        self.tasks.as_slice()
    }
}

impl Kept {
    /// No two entries of a kind have one key. It does nothing.
    fn are_unique(&self)
        ensures { AreUnique (noted_of self.now) }
    {
        let _places = self.places.len();
        let _tasks = self.tasks.len();
        let _cells = self.leases.cells.len();
        let _domains = self.leases.domains.len();
    }

    /// What is due at a moment. It takes memory for what it finds alone.
    pub(crate) fn due(&self, alloc: Global, now: Moment) -> Result<Due, OutOfMemory>
        ensures due { IfOk result (λ due. due ≡ due_in (noted_of self.now) now) }
        ensures free { subjects_in (due_in (noted_of self.now) now) ≡ [] → IsOk result }
        ensures unique { AreUnique (noted_of self.now) }
    {
        self.are_unique();
        let leases = &self.leases;
        let cells = due_entries(alloc, &leases.cells, leases, now)?;
        let domains = due_entries(alloc, &leases.domains, leases, now)?;
        let places = due_entries(alloc, &self.places, leases, now)?;
        let tasks = due_entries(alloc, &self.tasks, leases, now)?;
        Ok(Due {
            cells: in_order(cells),
            domains: in_order(domains),
            places: in_order(places),
            tasks: in_order(tasks),
        })
    }
}
