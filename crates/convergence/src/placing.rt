//! The places at which an actual row stands or is wanted.
ghost use Rattle.std.specs.Prelude.{◌≡◌, ◌++◌, map, IfOk, OnOk};
ghost use Rattle.bbs_model.specs.Work.{wanted_places, places as told_places};
ghost use Rattle.convergence.specs.Wanted.{instance_places};
ghost use Rattle.lrp_records.specs.Place.{place_of};
ghost use Rattle.row_tables.specs.Table.{IsKeyOrder, table};

use bbs_model::Rows;
use diego_names::{Key, OutOfMemory};
use lrp_records::{Actual, Desired, Presence};
use std::alloc::Global;

/// Each place at which a row stands or is wanted, once and in order. It takes the time of a sort.
pub fn places(alloc: Global, rows: &Rows) -> Result<Vec<(Key, Presence)>, OutOfMemory>
    ensures { IfOk result (λ all. all.items ≡ told_places rows.now) }
{
    let mut all = Vec::new(alloc);
    add_wanted(&mut all, rows.desired.items())?;
    add_actual(&mut all, rows.actual.items())?;
    Ok(in_order(all))
}

/// The places of the ORDINARY rows that these processes want.
fn add_wanted(all: &mut Vec<(Key, Presence)>, desired: &[Desired]) -> Result<(), OutOfMemory>
    ensures { OnOk result (all.new.items ≡ all.old.items ++ wanted_places desired.entry.now) }
{
    for one in desired {
        add_instances(all, one)?;
    }
    Ok(())
}

fn add_instances(all: &mut Vec<(Key, Presence)>, desired: &Desired) -> Result<(), OutOfMemory>
    ensures { OnOk result (all.new.items ≡ all.old.items ++ instance_places desired.entry.now) }
{
    let process = desired.process;
    for index in 0..desired.instances {
        all.push((Key { process, index }, Presence::Ordinary))?;
    }
    Ok(())
}

fn add_actual(all: &mut Vec<(Key, Presence)>, rows: &[Actual]) -> Result<(), OutOfMemory>
    ensures { OnOk result (all.new.items ≡ all.old.items ++ map place_of rows.entry.now) }
{
    for row in rows {
        all.push(row.place())?;
    }
    Ok(())
}

/// These keys, each once and in order.
fn in_order<K: Ord + Drop>(mut all: Vec<K>) -> Vec<K>
    requires { IsKeyOrder K.cmp }
    ensures { result.items ≡ table K.cmp (λ p. p) all.items }
{
    all.sort_unstable();
    all.dedup();
    all
}
