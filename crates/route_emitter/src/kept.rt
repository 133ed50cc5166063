//! What an emitter keeps of a board's rows: the desired rows with a route, and the RUNNING rows.
ghost use Rattle.std.specs.Prelude.{◌≡◌, ◌+◌, ◌*◌, ◌≤◌, ◌<◌, ◌++◌, [], length, option_to_list, filter, vec_capacity, vec_len, IfOk, OnOk};
ghost use Rattle.std.specs.List.{filter_map, flat_map};
ghost use Rattle.diego_names.specs.Order.{name_order};
ghost use Rattle.lrp_records.specs.Place.{place_of, place_order};
ghost use Rattle.row_tables.specs.Table.{IsRising};
ghost use Rattle.bbs_model.specs.Tables.{process_of};
ghost use Rattle.route_emitter.specs.Keeping.{desired_after, desired_by, running_after, running_by, stands, with_desired, with_running};
ghost use Rattle.route_emitter.specs.Near.{entries_at, entries_of, entry_at, has_row, has_rows};
ghost use Rattle.route_emitter.specs.Routes.{entry_among, has_route, is_running, routes_in};

use crate::entry::RouteEntry;
use crate::sorted::put_in_order;
use crate::way::entry_for;
use bbs_index::Shelf;
use bbs_model::{Change, Event, Row};
use diego_names::Key;
use lrp_records::{Actual, Desired, LrpState, Presence};
use std::alloc::{AllocError, Global};
use std::marker::Model;

#[derive(Drop)]
pub(crate) struct Kept {
    desired: Shelf<Desired>,
    running: Shelf<Actual>,
}

impl Model for Kept {
    ghost use Rattle.std.specs.Prelude.{min};
    ghost use Rattle.route_emitter.specs.Keeping.{Keeping};

    ghost Value = { Keeping };

    ghost view = { λ a. record {
      desired = a.desired.rows;
      running = a.running.rows;
      spare = min a.desired.spare a.running.spare;
    } };
}

pub(crate) fn is_running(row: &Actual) -> bool
    ensures { result ≡ is_running row.now }
{
    match row.state {
        LrpState::Running { .. } => true,
        LrpState::Unclaimed | LrpState::Claimed { .. } | LrpState::Crashed => false,
    }
}

fn has_route(row: &Desired) -> bool
    ensures { result ≡ has_route row.now }
{
    row.route.is_some()
}

pub(crate) fn stands(change: Change) -> bool
    ensures { result ≡ stands change }
{
    match change {
        Change::Created | Change::Changed => true,
        Change::Removed => false,
    }
}

fn with_routes(alloc: Global, rows: &[Desired]) -> Result<Vec<Desired>, AllocError>
    ensures { IfOk result (λ kept. kept.items ≡ filter has_route rows.now) }
{
    let mut kept = Vec::new(alloc);
    for row in rows {
        if has_route(row) {
            kept.push(*row)?;
        }
    }
    Ok(kept)
}

fn that_run(alloc: Global, rows: &[Actual]) -> Result<Vec<Actual>, AllocError>
    ensures { IfOk result (λ kept. kept.items ≡ filter is_running rows.now) }
{
    let mut kept = Vec::new(alloc);
    for row in rows {
        if is_running(row) {
            kept.push(*row)?;
        }
    }
    Ok(kept)
}

fn add(entries: &mut Vec<RouteEntry>, entry: Option<RouteEntry>)
    requires { vec_len entries.old < vec_capacity entries.old }
    ensures items { entries.new.items ≡ entries.old.items ++ option_to_list entry }
    ensures len { vec_len entries.new ≤ vec_len entries.old + 1 }
    ensures capacity { vec_capacity entries.new ≡ vec_capacity entries.old }
{
    if let Some(entry) = entry {
        entries.push_reserved(entry);
    }
}

// The entries of these rows, in their order.
fn list_rows(
    alloc: Global,
    desired: &Shelf<Desired>,
    rows: &[Actual],
) -> Result<Vec<RouteEntry>, AllocError>
    ensures { IfOk result (λ entries. entries.items
        ≡ filter_map (entry_among desired.now.rows) rows.now) }
{
    let mut entries = Vec::new(alloc);
    for row in rows {
        if let Some(entry) = entry_for(desired.look(&row.key.process), row) {
            entries.push(entry)?;
        }
    }
    Ok(entries)
}

impl Kept {
    // What is kept of these rows, whose keys rise.
    pub(crate) fn of(
        alloc: Global,
        desired: &[Desired],
        actual: &[Actual],
    ) -> Result<Kept, AllocError>
        requires desired { IsRising name_order process_of desired.now }
        requires actual { IsRising place_order place_of actual.now }
        ensures desired { IfOk result (λ kept. kept.desired ≡ filter has_route desired.now) }
        ensures running { IfOk result (λ kept. kept.running ≡ filter is_running actual.now) }
    {
        let desired = with_routes(alloc, desired)?;
        let running = that_run(alloc, actual)?;
        Ok(Kept {
            desired: Shelf::of(alloc, desired.as_slice())?,
            running: Shelf::of(alloc, running.as_slice())?,
        })
    }

    // How many rows run. Their places rise.
    pub(crate) fn count(&self) -> usize
        ensures count { result ≡ length self.now.running }
        ensures rising { IsRising place_order place_of self.now.running }
    {
        self.running.len()
    }

    // Makes room for so many rows more of either table.
    pub(crate) fn reserve(&mut self, count: usize) -> Result<(), AllocError>
        ensures desired { self.new.desired ≡ self.old.desired }
        ensures running { self.new.running ≡ self.old.running }
        ensures room { OnOk result (count ≤ self.new.spare) }
    {
        self.desired.reserve(count)?;
        self.running.reserve(count)
    }

    fn take_desired(&mut self, change: Change, row: &Desired)
        requires { 0 < self.old.spare }
        ensures desired { self.new.desired ≡ with_desired change row.now self.old.desired }
        ensures running { self.new.running ≡ self.old.running }
        ensures spare { self.old.spare ≤ self.new.spare + 1 }
    {
        if stands(change) && has_route(row) {
            self.desired.put(*row);
        } else {
            self.desired.remove(&row.process);
        }
    }

    fn take_actual(&mut self, change: Change, row: &Actual)
        requires { 0 < self.old.spare }
        ensures desired { self.new.desired ≡ self.old.desired }
        ensures running { self.new.running ≡ with_running change row.now self.old.running }
        ensures spare { self.old.spare ≤ self.new.spare + 1 }
    {
        if stands(change) && is_running(row) {
            self.running.put(*row);
        } else {
            self.running.remove(&row.place());
        }
    }

    fn take_one(&mut self, event: &Event)
        requires { 0 < self.old.spare }
        ensures desired { self.new.desired ≡ desired_by event.now.change event.now.row self.old.desired }
        ensures running { self.new.running ≡ running_by event.now.change event.now.row self.old.running }
        ensures spare { self.old.spare ≤ self.new.spare + 1 }
    {
        match &event.row {
            Row::Desired(row) => self.take_desired(event.change, row),
            Row::Actual(row) => self.take_actual(event.change, row),
            Row::Task(_) | Row::Cell(_) | Row::Domain(_) => {}
        }
    }

    // What is kept after the events. There is room for a row of each.
    pub(crate) fn follow(&mut self, events: &[Event])
        requires { length events.now ≤ self.old.spare }
        ensures desired { self.new.desired ≡ desired_after events.now self.old.desired }
        ensures running { self.new.running ≡ running_after events.now self.old.running }
    {
        for event in events {
            self.take_one(event);
        }
    }

    // The table of routes, if these are all rows.
    pub(crate) fn table(
        &self,
        alloc: Global,
        rows: &[Actual],
    ) -> Result<Vec<RouteEntry>, AllocError>
        ensures { IfOk result (λ entries. entries.items ≡ routes_in self.now.desired rows.now) }
    {
        let mut entries = list_rows(alloc, &self.desired, rows)?;
        put_in_order(&mut entries);
        Ok(entries)
    }

    fn has_row(&self, key: &Key, presence: Presence) -> bool
        ensures { result ≡ has_row self.now.running key.now presence }
    {
        self.running.look(&(*key, presence)).is_some()
    }

    // Whether the instance runs, by a row of any presence.
    pub(crate) fn runs(&self, key: &Key) -> bool
        ensures { result ≡ has_rows self.now.running key.now }
    {
        self.has_row(key, Presence::Ordinary)
            || self.has_row(key, Presence::Evacuating)
            || self.has_row(key, Presence::Suspect)
    }

    // The entry of the instance by its row of that presence.
    fn entry_at(&self, key: &Key, presence: Presence) -> Option<RouteEntry>
        ensures { result ≡ entry_at self.now.desired self.now.running key.now presence }
    {
        match self.running.look(&(*key, presence)) {
            None => None,
            Some(row) => entry_for(self.desired.look(&row.key.process), row),
        }
    }

    // Adds the entries of the instance.
    fn list_one(&self, key: &Key, entries: &mut Vec<RouteEntry>)
        requires { vec_len entries.old + 3 ≤ vec_capacity entries.old }
        ensures items { entries.new.items
            ≡ entries.old.items ++ entries_at self.now.desired self.now.running key.now }
        ensures len { vec_len entries.new ≤ vec_len entries.old + 3 }
        ensures capacity { vec_capacity entries.new ≡ vec_capacity entries.old }
    {
        add(entries, self.entry_at(key, Presence::Ordinary));
        add(entries, self.entry_at(key, Presence::Evacuating));
        add(entries, self.entry_at(key, Presence::Suspect));
    }

    // Fills in the entries of these instances, in their order. There is memory for three of each.
    fn list(&self, keys: &[Key], entries: &mut Vec<RouteEntry>)
        requires empty { entries.old.items ≡ [] }
        requires room { 3 * length keys.now ≤ vec_capacity entries.old }
        ensures items { entries.new.items
            ≡ flat_map (entries_at self.now.desired self.now.running) keys.now }
        ensures len { vec_len entries.new ≤ 3 * length keys.now }
        ensures capacity { vec_capacity entries.new ≡ vec_capacity entries.old }
    {
        for key in keys {
            self.list_one(key, entries);
        }
    }

    // Fills in the entries of these instances, sorted and each once.
    pub(crate) fn fill(&self, keys: &[Key], entries: &mut Vec<RouteEntry>)
        requires empty { entries.old.items ≡ [] }
        requires room { 3 * length keys.now ≤ vec_capacity entries.old }
        ensures items { entries.new.items ≡ entries_of self.now.desired self.now.running keys.now }
        ensures len { vec_len entries.new ≤ 3 * length keys.now }
        ensures capacity { vec_capacity entries.new ≡ vec_capacity entries.old }
    {
        self.list(keys, entries);
        put_in_order(entries);
    }
}
