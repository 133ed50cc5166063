//! Whether two boards have the same rows.
ghost use Rattle.std.specs.Prelude.{◌≡◌, ◌↔◌, IsTrue};

use bbs_model::{DomainRow, Rows};
use cell_records::CellRow;
use lrp_records::{Actual, Desired};
use task_records::Task;

fn same_desired(one: &[Desired], other: &[Desired]) -> bool
    ensures { IsTrue result ↔ (one.now ≡ other.now) }
{
    one == other
}

fn same_actual(one: &[Actual], other: &[Actual]) -> bool
    ensures { IsTrue result ↔ (one.now ≡ other.now) }
{
    one == other
}

fn same_tasks(one: &[Task], other: &[Task]) -> bool
    ensures { IsTrue result ↔ (one.now ≡ other.now) }
{
    one == other
}

fn same_cells(one: &[CellRow], other: &[CellRow]) -> bool
    ensures { IsTrue result ↔ (one.now ≡ other.now) }
{
    one == other
}

fn same_domains(one: &[DomainRow], other: &[DomainRow]) -> bool
    ensures { IsTrue result ↔ (one.now ≡ other.now) }
{
    one == other
}

/// Whether the rows of each table are the same, and the number of transitions.
#[tactic(auto, using(crate::proofs::Alike::rows_alike))]
pub(crate) fn are_equal(one: &Rows, other: &Rows) -> bool
    ensures { IsTrue result ↔ (one.now ≡ other.now) }
{
    same_desired(one.desired.items(), other.desired.items())
        && same_actual(one.actual.items(), other.actual.items())
        && same_tasks(one.tasks.items(), other.tasks.items())
        && same_cells(one.cells.items(), other.cells.items())
        && same_domains(one.domains.items(), other.domains.items())
        && one.next == other.next
}
