ghost use Rattle.std.specs.Prelude.{OnOk};
ghost use Rattle.record_print.specs.PrintedRows.{cell_data};
ghost use Rattle.line_writing.specs.Writing.{AddsValue};

use cell_records::CellRow;
use json::Writer;
use line_writing::{begin, end, put_number, put_optional_name, put_text, put_truth};
use std::alloc::AllocError;

pub fn put_cell(line: &mut Writer, row: &CellRow) -> Result<(), AllocError>
    ensures { OnOk result (AddsValue line.old line.new (cell_data row.now)) }
{
    begin(line)?;
    put_text(line, "cell", row.cell.as_str())?;
    put_number(line, "containers", row.totals.containers as u64)?;
    put_number(line, "disk", row.totals.disk as u64)?;
    put_number(line, "epoch", row.epoch)?;
    put_truth(line, "evacuating", row.evacuating)?;
    put_number(line, "memory", row.totals.memory as u64)?;
    put_optional_name(line, "tag", &row.tag)?;
    put_number(line, "until", row.until)?;
    put_text(line, "zone", row.zone.as_str())?;
    end(line)
}
