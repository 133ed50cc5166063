ghost use Rattle.std.specs.Prelude.{◌≡◌, OnOk};
ghost use Rattle.lrp_records.specs.States.{name_of};
ghost use Rattle.record_print.specs.PrintedRows.{actual_data};
ghost use Rattle.record_print.specs.Words.{state_word};
ghost use Rattle.line_writing.specs.Writing.{AddsValue};

use crate::word::{presence_word, state_word};
use json::Writer;
use line_writing::{
    begin, end, put_number, put_optional_instance, put_optional_name, put_text, put_truth,
};
use lrp_records::{Actual, LrpState};
use std::alloc::{AllocError, Global};

pub fn put_actual(line: &mut Writer, alloc: Global, row: &Actual) -> Result<(), AllocError>
    ensures { OnOk result (AddsValue line.old line.new (actual_data row.now)) }
{
    begin(line)?;
    put_optional_name(line, "cell", &row.state.cell())?;
    put_number(line, "count", row.count as u64)?;
    put_truth(line, "error", row.error)?;
    put_number(line, "index", row.key.index as u64)?;
    put_optional_instance(line, alloc, "instance", &row.state.holder())?;
    put_text(line, "presence", presence_word(row.presence))?;
    put_text(line, "process", row.key.process.as_str())?;
    put_number(line, "since", row.since.0 as u64)?;
    put_text(line, "state", word_of(&row.state))?;
    end(line)
}

fn word_of(state: &LrpState) -> &'static str
    ensures { result.now ≡ state_word (name_of state.now) }
{
    state_word(state.name())
}
