//! The instances that a dump says are wanted.
ghost use Rattle.std.specs.Prelude.{◌≡◌, ◌<◌, ◌++◌, ◌∷◌, [], map, filter, flat_map, length, IfOk, OnOk};
ghost use Rattle.std.specs.List.{All};
ghost use Rattle.std.specs.HashSet.{contains};
ghost use Rattle.diego_names.specs.Key.{key_order};
ghost use Rattle.row_tables.specs.Table.{table};
ghost use Rattle.what_if.specs.Marks.{there_at, AreMarks};
ghost use Rattle.what_if.specs.Sites.{
  desired_instance,
  each_below,
  has_crashed,
  instance_there,
  instances_there,
  instances_wanted,
  is_crashed,
  wanted_of,
};
ghost use Rattle.what_if.specs.Stays.{same_key};
ghost use Rattle.diego_names.specs.declared.key.Key.{Key as AKey};

use crate::containers::key_of;
use crate::key_sets::key_set;
use crate::proxies::{proxy_of, with_proxy};
use crate::silence::has_crashed;
use crate::site::Wanted;
use crate::states_in_order::states_in_order;
use crate::tables::table_of;
use diego_names::{Key, List, OutOfMemory};
use dump_lines::{ActualRow, CellState, DesiredRow, InstanceOnCell};
use dump_reader::Dump;
use std::alloc::Global;
use std::collections::HashSet;

// The instances whose row is crashed.
fn crashed_keys(alloc: Global, rows: &[ActualRow]) -> Result<Vec<Key>, OutOfMemory>
    ensures { IfOk result (λ keys. keys.items
        ≡ map (λ r. r.instance) (filter (λ r. has_crashed r.state) rows.now)) }
{
    let keys = rows
        .iter()
        .filter(|row| has_crashed(&row.state))
        .map(|row| row.instance)
        .collect(alloc)?;
    Ok(keys)
}

fn crashed_of(alloc: Global, rows: &[ActualRow]) -> Result<HashSet<Key>, OutOfMemory>
    ensures { IfOk result (λ set. (key : AKey) → contains same_key set key ≡ is_crashed rows.now key) }
{
    let keys = crashed_keys(alloc, rows)?;
    let set = key_set(alloc, &keys)?;
    Ok(set)
}

// A dump with what is looked up of it for each instance.
#[derive(Drop)]
pub(crate) struct Marked<'a> {
    pub(crate) dump: &'a Dump,
    pub(crate) proxy: u32,
    pub(crate) crashed: HashSet<Key>,
}

fn marks_of(alloc: Global, dump: &Dump) -> Result<Marked<'_>, OutOfMemory>
    ensures dump { IfOk result (λ marked. marked.dump.now ≡ dump.now) }
    ensures marks { IfOk result AreMarks }
{
    let proxy = proxy_of(dump);
    let crashed = crashed_of(alloc, dump.actual.items())?;
    Ok(Marked {
        dump,
        proxy,
        crashed,
    })
}

// Adds an instance of a desired process.
fn add_desired(
    list: &mut List<Wanted>,
    marked: &Marked,
    row: &DesiredRow,
    index: u32,
) -> Result<(), OutOfMemory>
    requires { AreMarks marked.now }
    ensures { OnOk result (list.new
        ≡ list.old ++ desired_instance marked.now.dump.now row.now index ∷ []) }
{
    let key = Key {
        process: row.process,
        index,
    };
    let tag = row.demand.tag;
    let wanted = Wanted {
        key,
        memory: with_proxy(marked.proxy, row.demand.memory),
        disk: row.demand.disk,
        tag,
        crashed: marked.crashed.contains(&key),
    };
    list.push(wanted)?;
    Ok(())
}

// The instances below the number that the process has.
fn desired_instances(
    alloc: Global,
    marked: &Marked,
    row: &DesiredRow,
) -> Result<Vec<Wanted>, OutOfMemory>
    requires { AreMarks marked.now }
    ensures { IfOk result (λ list. list.items
        ≡ each_below (desired_instance marked.now.dump.now row.now) row.now.instances) }
{
    let mut list = List::new(alloc);
    for index in 0..row.instances {
        add_desired(&mut list, marked, row, index)?;
    }
    Ok(Vec::from(list))
}

// Those of all desired processes.
fn instances_of_desired(alloc: Global, marked: &Marked) -> Result<Vec<Wanted>, OutOfMemory>
    requires { AreMarks marked.now }
    ensures { IfOk result (λ list. list.items
        ≡ flat_map (λ r. each_below (desired_instance marked.now.dump.now r) r.instances)
        marked.now.dump.now.desired) }
{
    let mut list = Vec::new(alloc);
    for row in marked.dump.desired.items() {
        let mut more = desired_instances(alloc, marked, row)?;
        list.append(&mut more)?;
    }
    Ok(list)
}

// An instance that has a container.
fn instance_there(marked: &Marked, instance: &InstanceOnCell) -> Wanted
    requires { AreMarks marked.now }
    ensures { result ≡ instance_there marked.now.dump.now instance.now }
{
    let key = key_of(instance);
    Wanted {
        key,
        memory: with_proxy(marked.proxy, instance.memory),
        disk: instance.disk,
        tag: instance.tag,
        crashed: marked.crashed.contains(&key),
    }
}

// The instances that have a container on the cell that has not ended.
fn instances_there(
    alloc: Global,
    marked: &Marked,
    state: &CellState,
) -> Result<Vec<Wanted>, OutOfMemory>
    requires { AreMarks marked.now }
    ensures { IfOk result (λ list. list.items ≡ instances_there marked.now.dump.now state.now) }
{
    let list = state
        .instances
        .items()
        .iter()
        .filter(|instance| !instance.ended)
        .map(|instance| instance_there(marked, instance))
        .collect(alloc)?;
    Ok(list)
}

// Those of the cells at these places, one after another.
fn instances_at(
    alloc: Global,
    marked: &Marked,
    places: &[usize],
) -> Result<Vec<Wanted>, OutOfMemory>
    requires marks { AreMarks marked.now }
    requires inside { All (λ at. at < length marked.now.dump.now.states) places.now }
    ensures { IfOk result (λ list. list.items ≡ there_at marked.now.dump.now places.now) }
{
    let states = marked.dump.states.items();
    let mut list = Vec::new(alloc);
    for at in places {
        let mut more = instances_there(alloc, marked, &states[*at])?;
        list.append(&mut more)?;
    }
    Ok(list)
}

// Those of all cells, by name.
fn instances_of_cells(alloc: Global, marked: &Marked) -> Result<Vec<Wanted>, OutOfMemory>
    requires { AreMarks marked.now }
    ensures { IfOk result (λ list. list.items ≡ instances_wanted marked.now.dump.now []) }
{
    let places = states_in_order(alloc, marked.dump.states.items())?;
    let list = instances_at(alloc, marked, &places)?;
    Ok(list)
}

// The instances that are wanted: of two of one key both.
fn instances_wanted(alloc: Global, marked: &Marked) -> Result<Vec<Wanted>, OutOfMemory>
    requires { AreMarks marked.now }
    ensures { IfOk result (λ list. list.items
        ≡ instances_wanted marked.now.dump.now marked.now.dump.now.desired) }
{
    if marked.dump.desired.is_empty() {
        instances_of_cells(alloc, marked)
    } else {
        instances_of_desired(alloc, marked)
    }
}

fn with_keys(alloc: Global, list: &[Wanted]) -> Result<Vec<(Key, Wanted)>, OutOfMemory>
    ensures { IfOk result (λ rows. rows.items ≡ map (λ w. (w.key, w)) list.now) }
{
    let rows = list
        .iter()
        .map(|wanted| (wanted.key, *wanted))
        .collect(alloc)?;
    Ok(rows)
}

// Instances by key. Of two of one key the first is kept.
fn by_key(alloc: Global, list: &[Wanted]) -> Result<Vec<Wanted>, OutOfMemory>
    ensures { IfOk result (λ made. made.items ≡ table key_order (λ w. w.key) list.now) }
{
    let rows = with_keys(alloc, list)?;
    let made = table_of(alloc, &rows)?;
    Ok(made)
}

/// What is wanted, by key.
pub fn wanted_of(alloc: Global, dump: &Dump) -> Result<Vec<Wanted>, OutOfMemory>
    ensures { IfOk result (λ wanted. wanted.items ≡ wanted_of dump.now) }
{
    let marked = marks_of(alloc, dump)?;
    let list = instances_wanted(alloc, &marked)?;
    let wanted = by_key(alloc, &list)?;
    Ok(wanted)
}
