ghost use Rattle.std.specs.Prelude.{OnOk};
ghost use Rattle.record_print.specs.PrintedRows.{desired_data};
ghost use Rattle.line_writing.specs.Writing.{AddsValue};

use json::Writer;
use line_writing::{begin, end, put_number, put_optional_name, put_text};
use lrp_records::Desired;
use std::alloc::AllocError;

pub fn put_desired(line: &mut Writer, row: &Desired) -> Result<(), AllocError>
    ensures { OnOk result (AddsValue line.old line.new (desired_data row.now)) }
{
    begin(line)?;
    put_number(line, "disk", row.disk as u64)?;
    put_text(line, "domain", row.domain.as_str())?;
    put_number(line, "instances", row.instances as u64)?;
    put_number(line, "memory", row.memory as u64)?;
    put_number(line, "port", row.port as u64)?;
    put_text(line, "process", row.process.as_str())?;
    put_optional_name(line, "route", &row.route)?;
    put_optional_name(line, "tag", &row.tag)?;
    end(line)
}
