//! One change of a row, in a store.
ghost use Rattle.std.specs.Prelude.{◌≡◌, ◌+◌, ◌<◌, ◌≤◌, ◌^◌};
ghost use Rattle.bbs_model.specs.Step.{edited, edited_again, event_of, event_again, with_row, has_place_of, without_place_of};
ghost use Rattle.bbs_model.specs.Tables.{wanted};

use bbs_model::{Change, Edit, Event, Row, RowStore};

fn has_place_of<T: RowStore>(store: &T, row: &Row) -> bool
    ensures { result ≡ has_place_of (T.state store.now) row.now }
{
    match row {
        Row::Desired(row) => store.desired(&row.process).is_some(),
        Row::Actual(row) => store.actual(&row.key, row.presence).is_some(),
        Row::Task(row) => store.task(&row.name).is_some(),
        Row::Cell(row) => store.cell(&row.cell).is_some(),
        Row::Domain(row) => store.domain(&row.domain).is_some(),
    }
}

fn put<T: RowStore>(store: &mut T, row: &Row)
    requires room { 0 < T.spare store.old }
    requires fits { wanted (with_row (T.state store.old) row.now) < 2 ^ 32 }
    ensures state { T.state store.new ≡ with_row (T.state store.old) row.entry.now }
    ensures spare { T.spare store.old ≤ T.spare store.new + 1 }
{
    match *row {
        Row::Desired(row) => store.put_desired(row),
        Row::Actual(row) => store.put_actual(row),
        Row::Task(row) => store.put_task(row),
        Row::Cell(row) => store.put_cell(row),
        Row::Domain(row) => store.put_domain(row),
    }
}

fn remove<T: RowStore>(store: &mut T, row: &Row)
    ensures state { T.state store.new ≡ without_place_of (T.state store.old) row.entry.now }
    ensures spare { T.spare store.old ≤ T.spare store.new }
{
    match row {
        Row::Desired(row) => store.remove_desired(&row.process),
        Row::Actual(row) => store.remove_actual(&row.key, row.presence),
        Row::Task(row) => store.remove_task(&row.name),
        Row::Cell(row) => store.remove_cell(&row.cell),
        Row::Domain(row) => store.remove_domain(&row.domain),
    }
}

/// Makes a change, and tells what became of the row.
pub fn perform<T: RowStore>(store: &mut T, edit: &Edit) -> Event
    requires room { 0 < T.spare store.old }
    requires fits { wanted (edited (T.state store.old) edit.now) < 2 ^ 32 }
    ensures state { T.state store.new ≡ edited (T.state store.old) edit.entry.now }
    ensures event { result ≡ event_of (T.state store.old) edit.entry.now }
    ensures spare { T.spare store.old ≤ T.spare store.new + 1 }
{
    match edit {
        Edit::Put(row) => {
            let known = has_place_of(store, row);
            put(store, row);
            let change = if known {
                Change::Changed
            } else {
                Change::Created
            };
            Event { change, row: *row }
        }
        Edit::Drop(row) => {
            remove(store, row);
            Event {
                change: Change::Removed,
                row: *row,
            }
        }
    }
}

/// Makes a further change, if there is one.
pub fn perform_again<T: RowStore>(store: &mut T, edit: &Option<Edit>) -> Option<Event>
    requires room { 0 < T.spare store.old }
    requires fits { wanted (edited_again (T.state store.old) edit.now) < 2 ^ 32 }
    ensures state { T.state store.new ≡ edited_again (T.state store.old) edit.entry.now }
    ensures event { result ≡ event_again (T.state store.old) edit.entry.now }
    ensures spare { T.spare store.old ≤ T.spare store.new + 1 }
{
    match edit {
        Some(edit) => Some(perform(store, edit)),
        None => None,
    }
}
