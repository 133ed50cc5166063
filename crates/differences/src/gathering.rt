//! What is kept, gathered from the rows of a board.
ghost use Rattle.std.specs.Prelude.{◌≡◌, ℕ, List, [], OnOk, IfOk};
ghost use Rattle.std.specs.Option.{option_map, option_map_or};
ghost use Rattle.indexmap.specs.IndexMap.{get};
ghost use Rattle.diego_names.specs.declared.key.Key.{Key as AKey};
ghost use Rattle.lrp_records.specs.declared.presence.Presence.{Presence as APresence};
ghost use Rattle.bbs_model.specs.Valid.{IsValid};
ghost use Rattle.bbs_model.specs.Work.{wants};
ghost use Rattle.convergence.specs.Subjects.{OfPlace};
ghost use Rattle.row_tables.specs.Table.{find_row, IsRising};
ghost use Rattle.work_causes.specs.Causes.{causes_of, end_in, lease_in, listed};
ghost use Rattle.differences.specs.Gathering.{AreInstancesSettled, AreRowsSettled, AreWantedSettled, GoesOn, IsSettled};
ghost use Rattle.differences.specs.Noted.{is_below, named, noted_of};
ghost use Rattle.differences.specs.Standing.{StandsFor};

use crate::entries::add;
use crate::following::{if_any, is_below};
use crate::kept::{Kept, Leases, Places};
use crate::told::{Told, told_of};
use bbs_model::Rows;
use convergence::find_sorted;
use diego_names::{Key, OutOfMemory};
use indexmap::IndexMap;
use lrp_records::{Actual, Desired, Presence};
use std::alloc::Global;
use work_causes::{Causes, place_causes};

/// What is told of each row, under its own key.
fn told_of_all<X: Told>(
    alloc: Global,
    rows: &[X],
) -> Result<IndexMap<X::Key, X::Value>, OutOfMemory>
    requires { IsRising X.Key.cmp X.key rows.now }
    ensures { IfOk result (λ map. (q : X.Key) → get X.Key.eq map q
        ≡ option_map X.told (find_row X.Key.cmp X.key q rows.now)) }
{
    let mut map = IndexMap::new(alloc);
    for row in rows {
        add(&mut map, row.key(), Some(row.told()))?;
    }
    Ok(map)
}

fn count_in(rows: &Rows, key: &Key) -> Option<u32>
    requires { IsValid rows.now }
    ensures { is_below result key.now.index ≡ wants rows.now key.now }
{
    told_of(&find_sorted(rows.desired.items(), &key.process))
}

fn causes_in(rows: &Rows, place: &(Key, Presence)) -> Option<Causes>
    requires { IsValid rows.now }
    ensures { option_map_or listed result [] ≡ causes_of rows.now (OfPlace place.now) }
{
    let (key, presence) = *place;
    let wanted = is_below(count_in(rows, &key), key.index);
    let ordinary = find_sorted(rows.actual.items(), &(key, Presence::Ordinary));
    let own = find_sorted(rows.actual.items(), &(key, presence));
    if_any(place_causes(presence, wanted, &ordinary, &own))
}

fn settle(places: &mut Places, rows: &Rows, place: (Key, Presence)) -> Result<(), OutOfMemory>
    requires { IsValid rows.now }
    ensures here { OnOk result (IsSettled rows.now places.new.entries place) }
    ensures goes_on { OnOk result (GoesOn rows.now places.old.entries places.new.entries) }
{
    let causes = causes_in(rows, &place);
    add(places, place, causes)?;
    Ok(())
}

/// The places of the instances that a process wants.
fn settle_instances(places: &mut Places, rows: &Rows, desired: &Desired) -> Result<(), OutOfMemory>
    requires { IsValid rows.now }
    ensures here { OnOk result (AreInstancesSettled rows.entry.now places.new.entries
        desired.entry.now.process desired.entry.now.instances) }
    ensures goes_on { OnOk result (GoesOn rows.entry.now places.old.entries places.new.entries) }
{
    let process = desired.process;
    for index in 0..desired.instances {
        settle(places, rows, (Key { process, index }, Presence::Ordinary))?;
    }
    Ok(())
}

fn settle_wanted(places: &mut Places, rows: &Rows, desired: &[Desired]) -> Result<(), OutOfMemory>
    requires { IsValid rows.now }
    ensures here { OnOk result (AreWantedSettled rows.entry.now places.new.entries
        desired.entry.now) }
    ensures goes_on { OnOk result (GoesOn rows.entry.now places.old.entries places.new.entries) }
{
    for one in desired {
        settle_instances(places, rows, one)?;
    }
    Ok(())
}

fn settle_rows(places: &mut Places, rows: &Rows, actual: &[Actual]) -> Result<(), OutOfMemory>
    requires { IsValid rows.now }
    ensures here { OnOk result (AreRowsSettled rows.entry.now places.new.entries
        actual.entry.now) }
    ensures goes_on { OnOk result (GoesOn rows.entry.now places.old.entries places.new.entries) }
{
    for row in actual {
        settle(places, rows, row.place())?;
    }
    Ok(())
}

/// The causes of all places.
fn places_of(alloc: Global, rows: &Rows) -> Result<Places, OutOfMemory>
    requires { IsValid rows.now }
    ensures { IfOk result (λ places. (p : AKey × APresence) → IsSettled rows.now places.entries p) }
{
    let mut places = IndexMap::new(alloc);
    settle_wanted(&mut places, rows, rows.desired.items())?;
    settle_rows(&mut places, rows, rows.actual.items())?;
    Ok(places)
}

/// The leases of all cells, and the ends of all domains.
fn leases_of(alloc: Global, rows: &Rows) -> Result<Leases, OutOfMemory>
    requires { IsValid rows.now }
    ensures cells { IfOk result (λ l. (q : List ℕ) → named l.cells.entries q ≡ lease_in rows.now q) }
    ensures domains { IfOk result (λ l. (q : List ℕ) → named l.domains.entries q ≡ end_in rows.now q) }
{
    Ok(Leases {
        cells: told_of_all(alloc, rows.cells.items())?,
        domains: told_of_all(alloc, rows.domains.items())?,
    })
}

impl Kept {
    /// What is kept of these rows.
    pub(crate) fn of(alloc: Global, rows: &Rows) -> Result<Kept, OutOfMemory>
        requires { IsValid rows.now }
        ensures { IfOk result (λ k. StandsFor (noted_of k) rows.now) }
    {
        Ok(Kept {
            places: places_of(alloc, rows)?,
            tasks: told_of_all(alloc, rows.tasks.items())?,
            wanted: told_of_all(alloc, rows.desired.items())?,
            leases: leases_of(alloc, rows)?,
        })
    }
}
