//! A change of one row, in a table made anew.
ghost use Rattle.std.specs.Prelude.{◌≡◌, if◌then◌else◌, IfOk, OnOk, OnErr};
ghost use Rattle.bbs_model.specs.Step.{edited, with_row, without_place_of, event_of, has_place_of};

use crate::tables::{copied, with, without};
use bbs_model::{Change, Edit, Event, Row, Rows, find_in};
use diego_names::OutOfMemory;
use std::alloc::Global;

/// Makes an edit, and tells it. Where memory runs out, the rows stay.
pub fn edit(alloc: Global, rows: &mut Rows, edit: &Edit) -> Result<Event, OutOfMemory>
    ensures ok { OnOk result (rows.new ≡ edited rows.old edit.entry.now) }
    ensures event { IfOk result (λ event. event ≡ event_of rows.old edit.entry.now) }
    ensures err { OnErr result (rows.new ≡ rows.old) }
{
    let event = event_of(rows, edit);
    match *edit {
        Edit::Put(row) => put(alloc, rows, &row)?,
        Edit::Drop(row) => take_away(alloc, rows, &row)?,
    }
    Ok(event)
}

/// What an edit does to a row.
fn event_of(rows: &Rows, edit: &Edit) -> Event
    ensures { result ≡ event_of rows.now edit.now }
{
    match *edit {
        Edit::Put(row) => Event {
            change: change_of(has_place_of(rows, &row)),
            row,
        },
        Edit::Drop(row) => Event {
            change: Change::Removed,
            row,
        },
    }
}

/// What a put is, by whether there is a row in that place.
fn change_of(known: bool) -> Change
    ensures { result ≡ (if known then Change.Changed else Change.Created) }
{
    if known {
        Change::Changed
    } else {
        Change::Created
    }
}

/// Whether there is a row in the place of this.
fn has_place_of(rows: &Rows, row: &Row) -> bool
    ensures { result ≡ has_place_of rows.now row.now }
{
    match *row {
        Row::Desired(row) => find_in(rows.desired.items(), &row.process).is_some(),
        Row::Actual(row) => find_in(rows.actual.items(), &(row.key, row.presence)).is_some(),
        Row::Task(row) => find_in(rows.tasks.items(), &row.name).is_some(),
        Row::Cell(row) => find_in(rows.cells.items(), &row.cell).is_some(),
        Row::Domain(row) => find_in(rows.domains.items(), &row.domain).is_some(),
    }
}

/// Puts a row in its place. Where memory runs out, the rows stay.
pub fn put(alloc: Global, rows: &mut Rows, row: &Row) -> Result<(), OutOfMemory>
    ensures ok { OnOk result (rows.new ≡ with_row rows.old row.entry.now) }
    ensures err { OnErr result (rows.new ≡ rows.old) }
{
    match *row {
        Row::Desired(row) => {
            rows.desired = with(alloc, rows.desired.items(), row)?;
            Ok(())
        }
        Row::Actual(row) => {
            rows.actual = with(alloc, rows.actual.items(), row)?;
            Ok(())
        }
        Row::Task(row) => {
            rows.tasks = with(alloc, rows.tasks.items(), row)?;
            Ok(())
        }
        Row::Cell(row) => {
            rows.cells = with(alloc, rows.cells.items(), row)?;
            Ok(())
        }
        Row::Domain(row) => {
            rows.domains = with(alloc, rows.domains.items(), row)?;
            Ok(())
        }
    }
}

/// Takes away what stands in the place of a row. Where memory runs out, the rows stay.
pub fn take_away(alloc: Global, rows: &mut Rows, row: &Row) -> Result<(), OutOfMemory>
    ensures ok { OnOk result (rows.new ≡ without_place_of rows.old row.entry.now) }
    ensures err { OnErr result (rows.new ≡ rows.old) }
{
    match *row {
        Row::Desired(row) => {
            rows.desired = without(alloc, rows.desired.items(), &row.process)?;
            Ok(())
        }
        Row::Actual(row) => {
            rows.actual = without(alloc, rows.actual.items(), &row.place())?;
            Ok(())
        }
        Row::Task(row) => {
            rows.tasks = without(alloc, rows.tasks.items(), &row.name)?;
            Ok(())
        }
        Row::Cell(row) => {
            rows.cells = without(alloc, rows.cells.items(), &row.cell)?;
            Ok(())
        }
        Row::Domain(row) => {
            rows.domains = without(alloc, rows.domains.items(), &row.domain)?;
            Ok(())
        }
    }
}

/// The same rows.
pub fn copy_of(alloc: Global, rows: &Rows) -> Result<Rows, OutOfMemory>
    ensures { IfOk result (λ copy. copy ≡ rows.now) }
{
    Ok(Rows {
        desired: copied(alloc, rows.desired.items())?,
        actual: copied(alloc, rows.actual.items())?,
        tasks: copied(alloc, rows.tasks.items())?,
        cells: copied(alloc, rows.cells.items())?,
        domains: copied(alloc, rows.domains.items())?,
        next: rows.next,
    })
}
