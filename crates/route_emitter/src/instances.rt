//! The instances whose rows run, in the order of their processes: so those of a process are found without a
//! look at others.
ghost use Rattle.std.specs.Prelude.{◌≡◌, ◌++◌, true, false, filter, IfOk, OnOk};
ghost use Rattle.std.specs.BTreeSet.{contains};
ghost use Rattle.std.specs.List.{filter_map, flat_map};
ghost use Rattle.diego_names.specs.Key.{key_order};
ghost use Rattle.diego_names.specs.Order.{name_order};
ghost use Rattle.diego_names.specs.declared.key.Key.{Key as AKey};
ghost use Rattle.row_tables.specs.Table.{table};
ghost use Rattle.route_emitter.specs.Near.{AreNamed, Covers, IsIndexed, WillCover, first_of, has_rows, if_put, key_in, key_put, last_of, of_process, process_in};
ghost use Rattle.route_emitter.specs.Routes.{is_running};

use crate::kept::{Kept, is_running, stands};
use crate::sorted::put_in_order;
use bbs_model::{Change, Event, Row};
use diego_names::{Key, Name, OutOfMemory};
use lrp_records::Actual;
use std::alloc::{AllocError, Global};
use std::collections::BTreeSet;
use std::ops::Bound;

/// An index may have an instance that doesn't run. So those that events let run are added before
/// anything changes, and want of memory leaves nothing half done.
#[derive(Drop)]
pub(crate) struct Instances {
    set: BTreeSet<Key>,
}

fn key_if_put(change: Change, row: &Actual) -> Option<Key>
    ensures { result ≡ if_put change row.now }
{
    if stands(change) && is_running(row) {
        Some(row.key)
    } else {
        None
    }
}

// The instance whose row runs after the event.
fn key_put(event: &Event) -> Option<Key>
    ensures { result ≡ key_put event.now.change event.now.row }
{
    match &event.row {
        Row::Actual(row) => key_if_put(event.change, row),
        Row::Desired(_) | Row::Task(_) | Row::Cell(_) | Row::Domain(_) => None,
    }
}

// The instance whose row changes.
fn key_in(row: &Row) -> Option<Key>
    ensures { result ≡ key_in row.now }
{
    match row {
        Row::Actual(row) => Some(row.key),
        Row::Desired(_) | Row::Task(_) | Row::Cell(_) | Row::Domain(_) => None,
    }
}

// The process whose row changes.
fn process_in(row: &Row) -> Option<Name>
    ensures { result ≡ process_in row.now }
{
    match row {
        Row::Desired(row) => Some(row.process),
        Row::Actual(_) | Row::Task(_) | Row::Cell(_) | Row::Domain(_) => None,
    }
}

// The instances whose rows change.
fn keys_in(alloc: Global, events: &[Event]) -> Result<Vec<Key>, AllocError>
    ensures { IfOk result (λ keys. keys.items ≡ filter_map (λ e. key_in e.row) events.now) }
{
    let mut keys = Vec::new(alloc);
    for event in events {
        if let Some(key) = key_in(&event.row) {
            keys.push(key)?;
        }
    }
    Ok(keys)
}

// The processes whose rows change, each once.
fn processes_in(alloc: Global, events: &[Event]) -> Result<Vec<Name>, AllocError>
    ensures { IfOk result (λ names. names.items
        ≡ table name_order (λ p. p) (filter_map (λ e. process_in e.row) events.now)) }
{
    let mut names = Vec::new(alloc);
    for event in events {
        if let Some(name) = process_in(&event.row) {
            names.push(name)?;
        }
    }
    put_in_order(&mut names);
    Ok(names)
}

fn first_of(process: &Name) -> Key
    ensures { result ≡ first_of process.now }
{
    Key {
        process: *process,
        index: 0,
    }
}

fn last_of(process: &Name) -> Key
    ensures { result ≡ last_of process.now }
{
    Key {
        process: *process,
        index: u32::MAX,
    }
}

impl Instances {
    // Those of these rows that run.
    pub(crate) fn of(alloc: Global, rows: &[Actual]) -> Result<Instances, OutOfMemory>
        ensures { IfOk result (λ instances. Covers (contains key_order instances.set)
            (filter is_running rows.now)) }
    {
        let mut instances = Instances {
            set: BTreeSet::new(alloc),
        };
        for row in rows {
            if is_running(row) {
                instances.add(row.key)?;
            }
        }
        Ok(instances)
    }

    fn add(&mut self, key: Key) -> Result<(), OutOfMemory>
        ensures more { (other : AKey) → contains key_order self.old.set other ≡ true
            → contains key_order self.new.set other ≡ true }
        ensures there { OnOk result (IsIndexed (contains key_order self.new.set) key) }
    {
        self.set.insert(key)?;
        Ok(())
    }

    // Adds the instances that run after the events.
    pub(crate) fn add_all(&mut self, events: &[Event]) -> Result<(), OutOfMemory>
        ensures more { (other : AKey) → contains key_order self.old.set other ≡ true
            → contains key_order self.new.set other ≡ true }
        ensures all { OnOk result (WillCover (contains key_order self.new.set) events.now) }
    {
        for event in events {
            if let Some(key) = key_put(event) {
                self.add(key)?;
            }
        }
        Ok(())
    }

    // Adds the keys that the process has here.
    fn list(&self, process: &Name, keys: &mut Vec<Key>) -> Result<(), AllocError>
        ensures { OnOk result (keys.new.items
            ≡ keys.old.items ++ of_process self.now.set.keys process.now) }
    {
        let first = Bound::Included(first_of(process));
        let last = Bound::Included(last_of(process));
        for key in self.set.range((first, last)) {
            keys.push(*key)?;
        }
        Ok(())
    }

    fn list_all(&self, processes: &[Name], keys: &mut Vec<Key>) -> Result<(), AllocError>
        ensures { OnOk result (keys.new.items
            ≡ keys.old.items ++ flat_map (of_process self.now.set.keys) processes.now) }
    {
        for process in processes {
            self.list(process, keys)?;
        }
        Ok(())
    }

    // The instances that the events concern, each once: that of each actual row, and those of each
    // desired row's process.
    pub(crate) fn named(&self, alloc: Global, events: &[Event]) -> Result<Vec<Key>, OutOfMemory>
        ensures { IfOk result (λ named. AreNamed (contains key_order self.now.set)
            named.items events.now) }
    {
        let mut named = keys_in(alloc, events)?;
        let processes = processes_in(alloc, events)?;
        self.list_all(processes.as_slice(), &mut named)?;
        put_in_order(&mut named);
        Ok(named)
    }

    // Takes the instance away.
    fn drop_one(&mut self, kept: &Kept, key: &Key)
        requires covers { Covers (contains key_order self.old.set) kept.now.running }
        requires idle { has_rows kept.now.running key.now ≡ false }
        ensures { Covers (contains key_order self.new.set) kept.now.running }
    {
        let _rows = kept.count();
        self.set.remove(key);
    }

    // Takes those of these instances away that don't run.
    pub(crate) fn drop_idle(&mut self, kept: &Kept, keys: &[Key])
        requires { Covers (contains key_order self.old.set) kept.now.running }
        ensures { Covers (contains key_order self.new.set) kept.now.running }
    {
        for key in keys {
            if !kept.runs(key) {
                self.drop_one(kept, key);
            }
        }
    }
}
