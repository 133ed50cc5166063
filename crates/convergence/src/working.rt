//! What convergence asks of all rows.
ghost use Rattle.std.specs.Prelude.{◌≡◌, ◌++◌, map, IfOk, OnOk};
ghost use Rattle.std.specs.List.{filter_map};
ghost use Rattle.std.specs.Option.{option_map, option_to_list};
ghost use Rattle.bbs_model.specs.Valid.{IsValid};
ghost use Rattle.bbs_model.specs.Work as told;
ghost use Rattle.bbs_model.specs.declared.domain_row.DomainRow.{DomainRow as ADomain};
ghost use Rattle.cell_records.specs.declared.cell_row.CellRow.{CellRow as ACell};

use crate::asking::{cell_work, domain_work, place_work, task_work};
use crate::placing::places;
use bbs_model::{Command, DomainRow, Op, Rows};
use cell_records::CellRow;
use crash_backoff::Moment;
use diego_names::{Key, List, OutOfMemory};
use lrp_records::Presence;
use std::alloc::Global;
use task_records::Task;

/// What convergence asks at a moment, in the order of cells, domains, places and tasks. It takes the time of
/// a sort of the places and of a few binary searches for each, and the memory of the places and of
/// what it asks.
pub fn work_of(alloc: Global, rows: &Rows, now: Moment) -> Result<List<Command>, OutOfMemory>
    requires { IsValid rows.now }
    ensures { IfOk result (λ list. list ≡ told.work rows.now now) }
{
    let places = places(alloc, rows)?;
    let mut asked = List::new(alloc);
    ask_cells(&mut asked, rows.cells.items(), now)?;
    ask_domains(&mut asked, rows.domains.items(), now)?;
    ask_places(&mut asked, rows, now, places.as_slice())?;
    ask_tasks(&mut asked, rows, now, rows.tasks.items())?;
    Ok(asked)
}

/// The command at a moment, if one is asked.
pub fn command_at(now: Moment, op: Option<Op>) -> Option<Command>
    ensures { result ≡ option_map (told.at now) op }
{
    match op {
        None => None,
        Some(op) => Some(Command { now, op }),
    }
}

/// Adds an item at the end, if there is one.
pub fn add<X: Copy>(items: &mut List<X>, item: Option<X>) -> Result<(), OutOfMemory>
    ensures { OnOk result (items.new ≡ items.old ++ option_to_list item) }
{
    match item {
        None => Ok(()),
        Some(item) => items.push(item),
    }
}

fn ask_cells(asked: &mut List<Command>, cells: &[CellRow], now: Moment) -> Result<(), OutOfMemory>
    ensures { OnOk result (asked.new ≡ asked.old
        ++ map (told.at now) (filter_map (λ (c : ACell). told.cell_work c now) cells.entry.now)) }
{
    for cell in cells {
        add(asked, command_at(now, cell_work(cell, now)))?;
    }
    Ok(())
}

fn ask_domains(
    asked: &mut List<Command>,
    domains: &[DomainRow],
    now: Moment,
) -> Result<(), OutOfMemory>
    ensures { OnOk result (asked.new ≡ asked.old
        ++ map (told.at now) (filter_map (λ (d : ADomain). told.domain_work d now) domains.entry.now)) }
{
    for domain in domains {
        add(asked, command_at(now, domain_work(domain, now)))?;
    }
    Ok(())
}

fn ask_places(
    asked: &mut List<Command>,
    rows: &Rows,
    now: Moment,
    places: &[(Key, Presence)],
) -> Result<(), OutOfMemory>
    requires { IsValid rows.now }
    ensures { OnOk result (asked.new ≡ asked.old
        ++ map (told.at now) (filter_map (told.place_work rows.entry.now now) places.entry.now)) }
{
    for place in places {
        add(asked, command_at(now, place_work(rows, now, place)))?;
    }
    Ok(())
}

fn ask_tasks(
    asked: &mut List<Command>,
    rows: &Rows,
    now: Moment,
    tasks: &[Task],
) -> Result<(), OutOfMemory>
    requires { IsValid rows.now }
    ensures { OnOk result (asked.new ≡ asked.old
        ++ map (told.at now) (filter_map (told.task_work rows.entry.now now) tasks.entry.now)) }
{
    for task in tasks {
        add(asked, command_at(now, task_work(rows, now, task)))?;
    }
    Ok(())
}
