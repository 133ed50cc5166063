//! What an event changes of what is kept: what it can touch is read anew.
ghost use Rattle.std.specs.Prelude.{◌≡◌, ◌≢◌, ◌+◌, ◌≤◌, ◌⊎◌, ℕ, List, [], ◌∷◌, true, max};
ghost use Rattle.std.specs.Option.{option_map, option_map_or, unwrap_or};
ghost use Rattle.indexmap.specs.IndexMap.{spare};
ghost use Rattle.diego_names.specs.declared.key.Key.{Key as AKey};
ghost use Rattle.lrp_records.specs.declared.presence.Presence.{Presence as APresence};
ghost use Rattle.bbs_model.specs.Limits.{most_instances};
ghost use Rattle.bbs_model.specs.Tables.{find_task};
ghost use Rattle.bbs_model.specs.Valid.{IsValid};
ghost use Rattle.bbs_model.specs.Work.{wants};
ghost use Rattle.convergence.specs.Subjects.{OfPlace};
ghost use Rattle.work_causes.specs.Causes.{causes_of, end_in, lease_in, listed, task_cause};
ghost use Rattle.differences.specs.Noted.{causes_at, is_below, is_counted, named};
ghost use Rattle.differences.specs.Renewal.{AreFew, HasRoomFor, IsBlank, IsOutside, IsRenewed, IsUnchanged, Renews, TakesRoomOf};
ghost use Rattle.differences.specs.Standing.{count_in};

use crate::entries::{renew, renew_known};
use crate::kept::{Counts, Kept, Places};
use crate::told::told_of;
use bbs_model::{Event, Row, RowStore};
use diego_names::{Key, Name};
use indexmap::IndexMap;
use lrp_records::Presence;
use work_causes::{Cause, Causes, Lease, place_causes};

fn is_bare(causes: &Causes) -> bool
    ensures { result ≡ true → listed causes.now ≡ [] }
{
    match causes.first {
        Some(_) => false,
        None => match causes.second {
            Some(_) => false,
            None => match causes.third {
                Some(_) => false,
                None => true,
            },
        },
    }
}

/// What is kept of causes: nothing if there are none.
pub(crate) fn if_any(causes: Causes) -> Option<Causes>
    ensures { option_map_or listed result [] ≡ listed causes }
{
    if is_bare(&causes) { None } else { Some(causes) }
}

fn causes_in<T: RowStore>(store: &T, wanted: bool, place: &(Key, Presence)) -> Option<Causes>
    requires { wanted ≡ wants (T.state store.now) place.now.0 }
    ensures { option_map_or listed result [] ≡ causes_of (T.state store.now) (OfPlace place.now) }
{
    let (key, presence) = *place;
    let ordinary = store.actual(&key, Presence::Ordinary);
    let own = store.actual(&key, presence);
    if_any(place_causes(presence, wanted, &ordinary, &own))
}

fn renew_place<T: RowStore>(places: &mut Places, store: &T, wanted: bool, place: (Key, Presence))
    requires wanted { wanted ≡ wants (T.state store.now) place.0 }
    requires room { 1 ≤ spare places.old }
    ensures places { (p : AKey × APresence) → IsRenewed (causes_of (T.state store.now) (OfPlace p))
        (causes_at places.old.entries p) (causes_at places.new.entries p) (place ≢ p) }
    ensures spare { spare places.old ≤ spare places.new + 1 }
{
    let causes = causes_in(store, wanted, &place);
    renew(places, place, causes);
}

/// The same where an entry is known. Where none is, nothing is done.
fn renew_aside<T: RowStore>(places: &mut Places, store: &T, wanted: bool, place: (Key, Presence))
    requires { wanted ≡ wants (T.state store.now) place.0 }
    ensures places { (p : AKey × APresence) → IsRenewed (causes_of (T.state store.now) (OfPlace p))
        (causes_at places.old.entries p) (causes_at places.new.entries p)
        ((place ≢ p) ⊎ ((place ≡ p) × (causes_at places.old.entries p ≡ []))) }
    ensures spare { spare places.old ≤ spare places.new }
{
    let causes = causes_in(store, wanted, &place);
    renew_known(places, place, causes);
}

/// The three places of an instance, any of whose rows may have come or gone.
fn renew_instance<T: RowStore>(places: &mut Places, store: &T, wanted: bool, key: &Key)
    requires wanted { wanted ≡ wants (T.state store.now) key.now }
    requires room { 3 ≤ spare places.old }
    ensures places { (p : AKey × APresence) → IsRenewed (causes_of (T.state store.now) (OfPlace p))
        (causes_at places.old.entries p) (causes_at places.new.entries p) (key.now ≢ p.0) }
    ensures spare { spare places.old ≤ spare places.new + 3 }
{
    renew_place(places, store, wanted, (*key, Presence::Ordinary));
    renew_place(places, store, wanted, (*key, Presence::Evacuating));
    renew_place(places, store, wanted, (*key, Presence::Suspect));
}

/// The three places of an instance, none of whose rows came or went. Only the place of its ORDINARY row may
/// have causes where it had none.
fn renew_index<T: RowStore>(places: &mut Places, store: &T, wanted: bool, key: &Key)
    requires wanted { wanted ≡ wants (T.state store.now) key.now }
    requires room { 1 ≤ spare places.old }
    ensures places { (p : AKey × APresence) → IsRenewed (causes_of (T.state store.now) (OfPlace p))
        (causes_at places.old.entries p) (causes_at places.new.entries p)
        ((key.now ≢ p.0) ⊎ IsBlank places.old.entries p) }
    ensures spare { spare places.old ≤ spare places.new + 1 }
{
    renew_place(places, store, wanted, (*key, Presence::Ordinary));
    renew_aside(places, store, wanted, (*key, Presence::Evacuating));
    renew_aside(places, store, wanted, (*key, Presence::Suspect));
}

fn count_in<T: RowStore>(store: &T, process: &Name) -> Option<u32>
    ensures { result ≡ count_in (T.state store.now) process.now }
{
    told_of(&store.desired(process))
}

fn task_in<T: RowStore>(store: &T, name: &Name) -> Option<Cause>
    ensures { result ≡ option_map task_cause (find_task (T.state store.now) name.now) }
{
    told_of(&store.task(name))
}

fn lease_in<T: RowStore>(store: &T, cell: &Name) -> Option<Lease>
    ensures { result ≡ lease_in (T.state store.now) cell.now }
{
    told_of(&store.cell(cell))
}

fn end_in<T: RowStore>(store: &T, name: &Name) -> Option<Option<u64>>
    ensures { result ≡ end_in (T.state store.now) name.now }
{
    told_of(&store.domain(name))
}

/// Whether the instance is wanted.
fn is_wanted<T: RowStore>(store: &T, key: &Key) -> bool
    ensures { result ≡ wants (T.state store.now) key.now }
{
    is_below(count_in(store, &key.process), key.index)
}

/// Whether the index is below the count.
pub(crate) fn is_below(count: Option<u32>, index: u32) -> bool
    ensures { result ≡ is_below count index }
{
    match count {
        None => false,
        Some(count) => index < count,
    }
}

/// The places of the instances of a process with an index in a range.
fn renew_range<T: RowStore>(
    places: &mut Places,
    store: &T,
    process: Name,
    count: Option<u32>,
    low: u32,
    high: u32,
)
    requires count { count ≡ count_in (T.state store.now) process }
    requires range { low ≤ high }
    requires room { high ≤ low + spare places.old }
    ensures places { (p : AKey × APresence) → IsRenewed (causes_of (T.state store.now) (OfPlace p))
        (causes_at places.old.entries p) (causes_at places.new.entries p)
        (IsOutside process low high p.0 ⊎ IsBlank places.old.entries p) }
    ensures spare { spare places.old + low ≤ spare places.new + high }
{
    for index in low..high {
        renew_index(
            places,
            store,
            is_below(count, index),
            &Key { process, index },
        );
    }
}

/// The instances whose want has changed, where a process that wanted `before` wants `after` now.
fn renew_changed<T: RowStore>(
    places: &mut Places,
    store: &T,
    process: &Name,
    before: Option<u32>,
    after: Option<u32>,
)
    requires after { after ≡ count_in (T.state store.now) process.now }
    requires room { max (unwrap_or before 0) (unwrap_or after 0) ≤ spare places.old }
    ensures places { (p : AKey × APresence) → IsRenewed (causes_of (T.state store.now) (OfPlace p))
        (causes_at places.old.entries p) (causes_at places.new.entries p)
        (IsUnchanged process.now before after p.0 ⊎ IsBlank places.old.entries p) }
    ensures spare { spare places.old ≤ spare places.new + max (unwrap_or before 0) (unwrap_or after 0) }
{
    let was = before.unwrap_or(0);
    let is = after.unwrap_or(0);
    renew_range(places, store, *process, after, was.min(is), was.max(is));
}

/// A process whose row has come, changed or gone.
fn take_desired<T: RowStore>(places: &mut Places, counts: &mut Counts, store: &T, process: &Name)
    requires before { unwrap_or (named counts.old.entries process.now) 0 ≤ most_instances }
    requires after { unwrap_or (count_in (T.state store.now) process.now) 0 ≤ most_instances }
    requires room { most_instances ≤ spare places.old }
    requires one { 1 ≤ spare counts.old }
    ensures places { (p : AKey × APresence) → IsRenewed (causes_of (T.state store.now) (OfPlace p))
        (causes_at places.old.entries p) (causes_at places.new.entries p)
        ((is_counted counts.new.entries p.0 ≡ is_counted counts.old.entries p.0)
        ⊎ IsBlank places.old.entries p) }
    ensures counts { (q : List ℕ) → IsRenewed (count_in (T.state store.now) q)
        (named counts.old.entries q) (named counts.new.entries q) (process.now ≢ q) }
    ensures spare { spare places.old ≤ spare places.new + most_instances }
    ensures taken { spare counts.old ≤ spare counts.new + 1 }
{
    let before = counts.get(process).copied();
    let after = count_in(store, process);
    renew(counts, *process, after);
    renew_changed(places, store, process, before, after);
}

/// What is kept of a row under its own name, where that has come, changed or gone.
fn take_named<V: Copy>(map: &mut IndexMap<Name, V>, name: Name, value: Option<V>)
    requires { 1 ≤ spare map.old }
    ensures there { named map.new.entries name ≡ value }
    ensures others { (q : List ℕ) → name ≢ q → named map.new.entries q ≡ named map.old.entries q }
    ensures spare { spare map.old ≤ spare map.new + 1 }
{
    renew(map, name, value);
}

impl Kept {
    /// Reads anew what an event can touch. The store has the rows behind its transition.
    pub(crate) fn take_in<T: RowStore>(&mut self, store: &T, event: &Event)
        requires valid { IsValid (T.state store.now) }
        requires few { AreFew self.old }
        requires room { HasRoomFor 1 self.old.room }
        ensures renews { Renews (T.state store.now) (event.now.row ∷ []) self.old self.new }
        ensures few { AreFew self.new }
        ensures room { TakesRoomOf 1 self.old.room self.new.room }
    {
        match &event.row {
            Row::Desired(row) => {
                take_desired(&mut self.places, &mut self.wanted, store, &row.process);
            }
            Row::Actual(row) => {
                let wanted = is_wanted(store, &row.key);
                renew_instance(&mut self.places, store, wanted, &row.key);
            }
            Row::Task(row) => take_named(&mut self.tasks, row.name, task_in(store, &row.name)),
            Row::Cell(row) => {
                take_named(&mut self.leases.cells, row.cell, lease_in(store, &row.cell));
            }
            Row::Domain(row) => {
                take_named(
                    &mut self.leases.domains,
                    row.domain,
                    end_in(store, &row.domain),
                );
            }
        }
    }
}
