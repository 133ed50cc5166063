//! The rows of the five tables as objects, with the members that are printed.
ghost use Rattle.std.specs.Prelude.{codes, OnOk};
ghost use Rattle.record_print.specs.PrintedRows.{row_data};
ghost use Rattle.line_writing.specs.Writing.{AddsMember, AddsValue};

mod actual;
mod cell;
mod desired;
mod domain;
mod task;

use actual::put_actual;
use bbs_model::Row;
use cell::put_cell;
use desired::put_desired;
use domain::put_domain;
use json::Writer;
use line_writing::put_key;
use std::alloc::{AllocError, Global};
use task::put_task;

/// The member `row`.
pub fn put_row(line: &mut Writer, alloc: Global, row: &Row) -> Result<(), AllocError>
    ensures { OnOk result (AddsMember line.old line.new (codes "row") (row_data row.now)) }
{
    put_key(line, "row")?;
    put_row_value(line, alloc, row)
}

fn put_row_value(line: &mut Writer, alloc: Global, row: &Row) -> Result<(), AllocError>
    ensures { OnOk result (AddsValue line.old line.new (row_data row.now)) }
{
    match row {
        Row::Desired(desired) => put_desired(line, desired),
        Row::Actual(actual) => put_actual(line, alloc, actual),
        Row::Task(task) => put_task(line, alloc, task),
        Row::Cell(cell) => put_cell(line, cell),
        Row::Domain(domain) => put_domain(line, domain),
    }
}
