//! The rows of a board as text.
ghost use Rattle.std.specs.Prelude.{◌≡◌, ◌++◌, IfOk, OnOk};
ghost use Rattle.bbs_model.specs.declared.event.Row.{Row as ARow};
ghost use Rattle.bbs_model.specs.declared.event.Row.TheVariants as row;
ghost use Rattle.program_tools.specs.Records.{records_text, table_lines};

use bbs_model::{DomainRow, Row, Rows};
use cell_records::CellRow;
use lrp_records::{Actual, Desired};
use record_print::row_text;
use std::alloc::{AllocError, Global};
use task_records::Task;

/// A row of a table that is known by its type.
trait OfTable: Copy {
    // The row, with its table.
    ghost with_table: { Self → ARow };

    fn with_table(self) -> Row
        ensures { result ≡ with_table self };
}

impl OfTable for Desired {
    ghost with_table = { row.Desired };

    fn with_table(self) -> Row {
        Row::Desired(self)
    }
}

impl OfTable for Actual {
    ghost with_table = { row.Actual };

    fn with_table(self) -> Row {
        Row::Actual(self)
    }
}

impl OfTable for Task {
    ghost with_table = { row.Task };

    fn with_table(self) -> Row {
        Row::Task(self)
    }
}

impl OfTable for CellRow {
    ghost with_table = { row.Cell };

    fn with_table(self) -> Row {
        Row::Cell(self)
    }
}

impl OfTable for DomainRow {
    ghost with_table = { row.Domain };

    fn with_table(self) -> Row {
        Row::Domain(self)
    }
}

/// Adds a line for each row of a table, in their order.
fn add_table<X: OfTable>(alloc: Global, text: &mut Vec<u8>, rows: &[X]) -> Result<(), AllocError>
    ensures { OnOk result (text.new.items
        ≡ text.old.items ++ table_lines X.with_table rows.entry.now) }
{
    for row in rows {
        let line = row_text(alloc, &row.with_table())?;
        text.extend_from_slice(&line)?;
    }
    Ok(())
}

/// A line for each row of a board: the desired processes, the instances, the tasks, the cells, the
/// domains, each table in the order of its keys.
pub fn records_text(alloc: Global, rows: &Rows) -> Result<Vec<u8>, AllocError>
    ensures { IfOk result (λ text. text.items ≡ records_text rows.now) }
{
    let mut text = Vec::new(alloc);
    add_table(alloc, &mut text, rows.desired.items())?;
    add_table(alloc, &mut text, rows.actual.items())?;
    add_table(alloc, &mut text, rows.tasks.items())?;
    add_table(alloc, &mut text, rows.cells.items())?;
    add_table(alloc, &mut text, rows.domains.items())?;
    Ok(text)
}
