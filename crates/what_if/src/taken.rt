//! The instances that a loss takes.
ghost use Rattle.std.specs.Prelude.{◌≡◌, ◌++◌, map, filter, not, IfOk, OnOk};
ghost use Rattle.std.specs.List.{flat_map};
ghost use Rattle.diego_names.specs.Order.{name_order};
ghost use Rattle.row_tables.specs.Table.{table};
ghost use Rattle.what_if.specs.Baselines.{held_by, stands_outside, IsBaseline};
ghost use Rattle.what_if.specs.Taken.{AreTaken};

use crate::baseline::Baseline;
use crate::cells::set_of;
use crate::site::Wanted;
use crate::tables::table_of;
use diego_names::{Name, OutOfMemory};
use std::alloc::Global;
use std::collections::HashSet;

// Whether the instance stands on a cell outside the set.
fn stands_outside(base: &Baseline, gone: &HashSet<Name>, wanted: &Wanted) -> bool
    ensures { result ≡ stands_outside base.now gone.now wanted.now }
{
    match base.cells.get(&wanted.key) {
        None => false,
        Some(cells) => cells.items().iter().any(|cell| !gone.contains(cell)),
    }
}

// Those of the instances that stand on no cell outside the set.
fn standing_inside(
    alloc: Global,
    base: &Baseline,
    gone: &HashSet<Name>,
    list: &[Wanted],
) -> Result<Vec<Wanted>, OutOfMemory>
    ensures { IfOk result (λ taken. taken.items
        ≡ filter (λ w. not (stands_outside base.now gone.now w)) list.now) }
{
    let taken = list
        .iter()
        .filter(|wanted| !stands_outside(base, gone, wanted))
        .copied()
        .collect(alloc)?;
    Ok(taken)
}

// Adds the instances that the cell holds and that stand on no cell outside the set.
fn add_taken(
    alloc: Global,
    base: &Baseline,
    gone: &HashSet<Name>,
    list: &mut Vec<Wanted>,
    cell: &Name,
) -> Result<(), OutOfMemory>
    ensures { OnOk result (list.new.items ≡ list.old.items
        ++ filter (λ w. not (stands_outside base.now gone.now w)) (held_by base.now cell.now)) }
{
    match base.held.get(cell) {
        None => Ok(()),
        Some(held) => {
            let mut more = standing_inside(alloc, base, gone, held.items())?;
            list.append(&mut more)?;
            Ok(())
        }
    }
}

fn taken_from(
    alloc: Global,
    base: &Baseline,
    gone: &HashSet<Name>,
    cells: &[Name],
) -> Result<Vec<Wanted>, OutOfMemory>
    ensures { IfOk result (λ taken. taken.items ≡ flat_map (λ cell.
        filter (λ w. not (stands_outside base.now gone.now w)) (held_by base.now cell)) cells.now) }
{
    let mut list = Vec::new(alloc);
    for cell in cells {
        add_taken(alloc, base, gone, &mut list, cell)?;
    }
    Ok(list)
}

fn twice(alloc: Global, names: &[Name]) -> Result<Vec<(Name, Name)>, OutOfMemory>
    ensures { IfOk result (λ rows. rows.items ≡ map (λ n. (n, n)) names.now) }
{
    let rows = names.iter().map(|name| (*name, *name)).collect(alloc)?;
    Ok(rows)
}

// The names, each once.
fn once(alloc: Global, names: &[Name]) -> Result<Vec<Name>, OutOfMemory>
    ensures { IfOk result (λ list. list.items ≡ table name_order (λ n. n) names.now) }
{
    let rows = twice(alloc, names)?;
    let list = table_of(alloc, &rows)?;
    Ok(list)
}

/// The wanted instances that a cell holds while nothing is lost, and none does with these cells lost. It costs
/// a few look-ups for each lost cell and each instance that one of them holds.
pub fn taken_by(alloc: Global, base: &Baseline, lost: &[Name]) -> Result<Vec<Wanted>, OutOfMemory>
    requires { IsBaseline base.now }
    ensures { IfOk result (λ taken. AreTaken base.now.site.now lost.now taken.items) }
{
    let gone = set_of(alloc, lost)?;
    let cells = once(alloc, lost)?;
    let taken = taken_from(alloc, base, &gone, &cells)?;
    Ok(taken)
}
