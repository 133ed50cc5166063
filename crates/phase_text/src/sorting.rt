//! The order in which a phase is told: answers by line, and events by table, key and presence.
ghost use Rattle.std.specs.Prelude.{◌≡◌, IfOk, map};
ghost use Rattle.std.specs.List.Sorted.{IsPermutation};
ghost use Rattle.phase_text.specs.Answers.{AreByLine};
ghost use Rattle.phase_text.specs.Sorting.{by_key, by_line, event_order, joined_parts, spot_of};

use bbs_model::{Event, Row};
use diego_names::{List, Name, OutOfMemory};
use lrp_records::Presence;
use scenario_lines::Answered;
use std::alloc::{AllocError, Global};
use std::cmp::Ordering;

/// The answers of all parts by line. Answers to one line stay in their order, and of two parts those
/// of the first come first. It takes the time of a sort.
pub fn answers_by_line(
    alloc: Global,
    parts: &List<List<Answered>>,
) -> Result<List<Answered>, OutOfMemory>
    ensures value { IfOk result (λ answers. answers ≡ by_line parts.now) }
    ensures rising { IfOk result AreByLine }
    ensures same { IfOk result (λ answers. IsPermutation (joined_parts parts.now) answers) }
{
    let mut all = joined(alloc, parts)?;
    all.sort_by_key(|answered| answered.line)?;
    Ok(List::from(all))
}

fn joined(alloc: Global, parts: &List<List<Answered>>) -> Result<Vec<Answered>, OutOfMemory>
    ensures { IfOk result (λ all. all.items ≡ joined_parts parts.now) }
{
    let mut all = Vec::new(alloc);
    for part in parts.items() {
        all.extend_from_slice(part.items())?;
    }
    Ok(all)
}

/// The place of a row's table among the tables.
fn table_of(row: &Row) -> u8
    ensures { result ≡ (spot_of row.now).table }
{
    match row {
        Row::Desired(_) => 0,
        Row::Actual(_) => 1,
        Row::Task(_) => 2,
        Row::Cell(_) => 3,
        Row::Domain(_) => 4,
    }
}

fn name_in(row: &Row) -> &Name
    ensures { result.now ≡ (spot_of row.now).name }
{
    match row {
        Row::Desired(desired) => &desired.process,
        Row::Actual(actual) => &actual.key.process,
        Row::Task(task) => &task.name,
        Row::Cell(cell) => &cell.cell,
        Row::Domain(domain) => &domain.domain,
    }
}

fn index_in(row: &Row) -> u32
    ensures { result ≡ (spot_of row.now).index }
{
    match row {
        Row::Actual(actual) => actual.key.index,
        Row::Desired(_) | Row::Task(_) | Row::Cell(_) | Row::Domain(_) => 0,
    }
}

fn presence_in(row: &Row) -> Presence
    ensures { result ≡ (spot_of row.now).presence }
{
    match row {
        Row::Actual(actual) => actual.presence,
        Row::Desired(_) | Row::Task(_) | Row::Cell(_) | Row::Domain(_) => Presence::Ordinary,
    }
}

/// How two rows stand to one another, by the first of these in which they differ. Names are compared where they
/// stand, since a sort compares each many times.
fn row_order(a: &Row, b: &Row) -> Ordering
    ensures { result ≡ event_order (spot_of a.now) (spot_of b.now) }
{
    let by_presence = presence_in(a).cmp(&presence_in(b));
    let by_index = index_in(a).cmp(&index_in(b)).then(by_presence);
    let by_name = name_in(a).cmp(name_in(b)).then(by_index);
    table_of(a).cmp(&table_of(b)).then(by_name)
}

/// The events in order, each where it stands. An event has hundreds of bytes, and a sort moves what it sorts many
/// times.
fn in_order(alloc: Global, events: &[Event]) -> Result<Vec<&Event>, AllocError>
    ensures { IfOk result (λ sorted. map (λ e. e.now) sorted.items ≡ by_key events.now) }
{
    let mut sorted: Vec<&Event> = events.iter().collect(alloc)?;
    sorted.sort_by(|a, b| row_order(&a.row, &b.row))?;
    Ok(sorted)
}

fn copied(alloc: Global, events: &[&Event]) -> Result<Vec<Event>, AllocError>
    ensures { IfOk result (λ all. all.items ≡ map (λ e. e.now) events.now) }
{
    events.iter().map(|event| **event).collect(alloc)
}

/// The events by table (desired, actual, task, cell, domain), by key, and of one instance the ORDINARY
/// row first, then the EVACUATING one, then the SUSPECT one. Events of one row stay in their order. It
/// takes the time of a sort.
pub fn events_by_key(alloc: Global, events: &[Event]) -> Result<List<Event>, OutOfMemory>
    ensures { IfOk result (λ list. list ≡ by_key events.now) }
{
    let sorted = in_order(alloc, events)?;
    let all = copied(alloc, &sorted)?;
    Ok(List::from(all))
}
