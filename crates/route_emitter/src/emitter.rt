//! The emitter: what is kept of a board's rows, and the table of routes that follows from it.
ghost use Rattle.std.specs.Prelude.{◌≡◌, ◌+◌, ◌≤◌, true, length, vec_capacity, vec_len, IfOk, OnOk, OnErr};
ghost use Rattle.std.specs.BTreeSet.{contains};
ghost use Rattle.diego_names.specs.Key.{key_order};
ghost use Rattle.diego_names.specs.declared.key.Key.{Key as AKey};
ghost use Rattle.lrp_records.specs.Place.{place_of, place_order};
ghost use Rattle.row_tables.specs.Table.{IsRising};
ghost use Rattle.bbs_model.specs.Valid.{IsValid};
ghost use Rattle.bbs_model.specs.declared.rows.Rows.{Rows as TheRows};
ghost use Rattle.event_laws.specs.Told.{with_events};
ghost use Rattle.route_emitter.specs.Entries.{minus};
ghost use Rattle.route_emitter.specs.Keeping.{desired_after, running_after};
ghost use Rattle.route_emitter.specs.Near.{AreNamed, KeepsOthers, WillCover};
ghost use Rattle.route_emitter.specs.Plans.{IsPlan};
ghost use Rattle.route_emitter.specs.Routes.{routes_in};
ghost use Rattle.route_emitter.specs.Routing.{IsRoutingOf};

use crate::changing::{FEW, change};
use crate::entry::{RouteChange, RouteEntry};
use crate::instances::Instances;
use crate::kept::Kept;
use crate::plan::Plan;
use crate::sorted::add_lacking;
use bbs_model::{Event, Rows};
use diego_names::{Key, List, OutOfMemory};
use std::alloc::Global;
use std::marker::Model;

/// Who keeps the table of routes along a board. It sees the board's rows once, and then its events alone.
#[derive(Drop)]
pub struct Emitter {
    alloc: Global,
    kept: Kept,
    instances: Instances,
    table: Vec<RouteEntry>,
}

impl Model for Emitter {
    ghost use Rattle.std.specs.BTreeSet.{contains};
    ghost use Rattle.diego_names.specs.Key.{key_order};
    ghost use Rattle.route_emitter.specs.Near.{IsFollowed};
    ghost use Rattle.route_emitter.specs.Routing.{Routing};

    ghost Value = { Routing };

    ghost view = { λ a. record {
      desired = a.kept.desired;
      running = a.kept.running;
      table = a.table.items;
    } };

    ghost invariant = { λ a. IsFollowed (contains key_order a.instances.set)
        a.kept.desired a.kept.running a.table.items };
}

// Has room for so many events, adds the instances that they let run to the index, and gives those that
// they concern.
fn make_ready(
    alloc: Global,
    kept: &mut Kept,
    instances: &mut Instances,
    table: &mut Vec<RouteEntry>,
    events: &[Event],
) -> Result<Vec<Key>, OutOfMemory>
    ensures desired { kept.new.desired ≡ kept.old.desired }
    ensures running { kept.new.running ≡ kept.old.running }
    ensures table { table.new.items ≡ table.old.items }
    ensures more { (key : AKey) → contains key_order instances.old.set key ≡ true
        → contains key_order instances.new.set key ≡ true }
    ensures room { OnOk result ((length events.now ≤ kept.new.spare)
        × (vec_len table.new + FEW ≤ vec_capacity table.new)) }
    ensures cover { OnOk result (WillCover (contains key_order instances.new.set) events.now) }
    ensures named { IfOk result (λ named. AreNamed (contains key_order instances.new.set)
        named.items events.now) }
{
    kept.reserve(events.len())?;
    table.reserve(FEW)?;
    instances.add_all(events)?;
    instances.named(alloc, events)
}

// Takes the events in. All memory that it wants is there.
fn renew(
    kept: &mut Kept,
    table: &mut Vec<RouteEntry>,
    events: &[Event],
    named: &[Key],
    plan: Plan,
) -> RouteChange
    requires rising { IsRising place_order place_of kept.old.running }
    requires spare { length events.now ≤ kept.old.spare }
    requires table { table.old.items ≡ routes_in kept.old.desired kept.old.running }
    requires few { vec_len table.old + FEW ≤ vec_capacity table.old }
    requires plan { IsPlan FEW kept.old.desired kept.old.running named.now (length named.now)
        (vec_len table.old) plan }
    requires others { KeepsOthers named.now table.old.items
        (routes_in (desired_after events.now kept.old.desired)
        (running_after events.now kept.old.running)) }
    ensures desired { kept.new.desired ≡ desired_after events.now kept.old.desired }
    ensures running { kept.new.running ≡ running_after events.now kept.old.running }
    ensures table { table.new.items ≡ routes_in kept.new.desired kept.new.running }
    ensures register { result.register ≡ minus table.new.items table.old.items }
    ensures unregister { result.unregister ≡ minus table.old.items table.new.items }
{
    let Plan {
        before,
        mut after,
        mut register,
        mut unregister,
        mut changes,
        next,
    } = plan;
    kept.follow(events);
    kept.fill(named, &mut after);
    add_lacking(&mut register, after.as_slice(), before.as_slice());
    add_lacking(&mut unregister, before.as_slice(), after.as_slice());
    change(
        table,
        next,
        &mut changes,
        register.as_slice(),
        unregister.as_slice(),
    );
    RouteChange {
        register: List::from(register),
        unregister: List::from(unregister),
    }
}

impl Emitter {
    /// An emitter of a board's rows.
    pub fn of(alloc: Global, rows: &Rows) -> Result<Emitter, OutOfMemory>
        requires { IsValid rows.now }
        ensures { IfOk result (λ emitter. IsRoutingOf rows.now emitter) }
    {
        let kept = Kept::of(alloc, rows.desired.items(), rows.actual.items())?;
        let instances = Instances::of(alloc, rows.actual.items())?;
        let table = kept.table(alloc, rows.actual.items())?;
        Ok(Emitter {
            alloc,
            kept,
            instances,
            table,
        })
    }

    /// Takes in what a board told, in its order, and gives what that changed in the table. If memory runs
    /// out, the emitter stays as it was. It looks at the instances that the events name: that of each actual
    /// row, and those that run of each desired row's process.
    pub fn take(&mut self, events: &[Event]) -> Result<RouteChange, OutOfMemory>
        ensures follows { OnOk result ((rows : TheRows) → IsRoutingOf rows self.old
            → IsRoutingOf (with_events events.now rows) self.new) }
        ensures register { IfOk result (λ c. c.register ≡ minus self.new.table self.old.table) }
        ensures unregister { IfOk result (λ c. c.unregister ≡ minus self.old.table self.new.table) }
        ensures stays { OnErr result (self.new ≡ self.old) }
    {
        let named = make_ready(
            self.alloc,
            &mut self.kept,
            &mut self.instances,
            &mut self.table,
            events,
        )?;
        let plan = Plan::of(self.alloc, &self.kept, named.as_slice(), self.table.len())?;
        let _rows = self.kept.count();
        let change = renew(
            &mut self.kept,
            &mut self.table,
            events,
            named.as_slice(),
            plan,
        );
        self.instances.drop_idle(&self.kept, named.as_slice());
        Ok(change)
    }

    /// The routes to what runs, sorted and each once.
    pub fn table(&self) -> &[RouteEntry]
        ensures { result.now ≡ self.now.table }
    {
        self.table.as_slice()
    }
}
