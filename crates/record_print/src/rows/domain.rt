ghost use Rattle.std.specs.Prelude.{OnOk};
ghost use Rattle.record_print.specs.PrintedRows.{domain_data};
ghost use Rattle.line_writing.specs.Writing.{AddsValue};

use bbs_model::DomainRow;
use json::Writer;
use line_writing::{begin, end, put_optional_number, put_text};
use std::alloc::AllocError;

pub fn put_domain(line: &mut Writer, row: &DomainRow) -> Result<(), AllocError>
    ensures { OnOk result (AddsValue line.old line.new (domain_data row.now)) }
{
    begin(line)?;
    put_text(line, "domain", row.domain.as_str())?;
    put_optional_number(line, "until", row.until)?;
    end(line)
}
