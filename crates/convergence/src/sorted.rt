//! Rows in a sorted table, by binary search.
ghost use Rattle.std.specs.Prelude.{◌≡◌};
ghost use Rattle.bbs_model.specs.Tables.{find_desired, find_actual, find_cell, find_domain, find_task};
ghost use Rattle.bbs_model.specs.Valid.{IsValid};
ghost use Rattle.row_tables.specs.Table.{find_row, IsRising};

use bbs_model::{DomainRow, Rowed, Rows};
use cell_records::CellRow;
use diego_names::{Key, Name};
use lrp_records::{Actual, Desired, Presence};
use task_records::Task;

/// The row at a key of a table, in as many steps as its length has binary digits.
pub fn find_sorted<X: Rowed>(rows: &[X], key: &X::Key) -> Option<X>
    requires { IsRising X.Key.cmp X.key rows.now }
    ensures { result ≡ find_row X.Key.cmp X.key key.now rows.now }
{
    match rows.binary_search_by_key(key, |row| row.key()) {
        Ok(at) => Some(rows[at]),
        Err(_) => None,
    }
}

/// The row of a process.
pub fn desired_of(rows: &Rows, process: &Name) -> Option<Desired>
    requires { IsValid rows.now }
    ensures { result ≡ find_desired rows.now process.now }
{
    find_sorted(rows.desired.items(), process)
}

/// The row of an instance with this presence.
pub fn actual_of(rows: &Rows, key: Key, presence: Presence) -> Option<Actual>
    requires { IsValid rows.now }
    ensures { result ≡ find_actual rows.now key presence }
{
    find_sorted(rows.actual.items(), &(key, presence))
}

/// The row of a cell.
pub fn cell_of(rows: &Rows, cell: &Name) -> Option<CellRow>
    requires { IsValid rows.now }
    ensures { result ≡ find_cell rows.now cell.now }
{
    find_sorted(rows.cells.items(), cell)
}

/// The row of a domain.
pub fn domain_of(rows: &Rows, name: &Name) -> Option<DomainRow>
    requires { IsValid rows.now }
    ensures { result ≡ find_domain rows.now name.now }
{
    find_sorted(rows.domains.items(), name)
}

/// The row of a task.
pub fn task_of(rows: &Rows, name: &Name) -> Option<Task>
    requires { IsValid rows.now }
    ensures { result ≡ find_task rows.now name.now }
{
    find_sorted(rows.tasks.items(), name)
}
