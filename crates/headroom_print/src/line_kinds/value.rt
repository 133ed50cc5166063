//! What a member of a printed line may be, and how it is written.
ghost use Rattle.std.specs.Prelude.{◌≡◌, OnOk, map};
ghost use Rattle.std.specs.List.{flat_map};
ghost use Rattle.serde_json.specs.Data.{string};
ghost use Rattle.line_writing.specs.Spelled.{optional_name_data};
ghost use Rattle.line_writing.specs.Writing.{AddsTokens, AddsValue};
ghost use Rattle.headroom_print.specs.Members.{item_tokens, value_data};
ghost use Rattle.headroom_print.specs.Values.{names_data, tags_data};
ghost use Rattle.headroom_print.specs.Words.{job_text};

use crate::line_kinds::counts::{put_amounts, put_lacks, put_verdicts, put_zones};
use crate::words::job_text;
use cell_records::{Amounts, JobName};
use diego_names::Name;
use forecast_records::{EachLost, ZoneCount};
use json::Writer;
use line_writing::{begin_list, end_list};
use room_facts::{Reasons, Sums};
use std::alloc::{AllocError, Global};

/// What a member of a line may be.
#[derive(Clone, Copy)]
pub(crate) enum Value<'a> {
    Number(u64),
    Truth(bool),
    Text(&'a str),
    Name(&'a Name),
    NameOrNull(&'a Option<Name>),
    Names(&'a [Name]),
    /// Null for work without one.
    Tags(&'a [Option<Name>]),
    Job(&'a JobName),
    Sums(&'a Sums),
    Free(&'a Amounts),
    Zones(&'a [ZoneCount]),
    Lacks(&'a Reasons),
    /// How many losses there are of each verdict.
    Verdicts(&'a EachLost),
}

/// A member of a line: its name, and what it is.
#[derive(Clone, Copy)]
pub(crate) struct Member<'a>(pub(crate) &'a str, pub(crate) Value<'a>);

pub(crate) fn put_value(line: &mut Writer, alloc: Global, value: &Value) -> Result<(), AllocError>
    ensures { OnOk result (AddsValue line.old line.new (value_data value.now)) }
{
    match value {
        Value::Number(number) => line.u64(*number),
        Value::Truth(truth) => line.boolean(*truth),
        Value::Text(text) => line.string(text),
        Value::Name(name) => line.string(name.as_str()),
        Value::NameOrNull(name) => put_name_or_null(line, name),
        Value::Names(names) => put_names(line, names),
        Value::Tags(tags) => put_tags(line, tags),
        Value::Job(job) => put_job(line, alloc, job),
        Value::Sums(sums) => put_amounts(line, sums.containers, sums.disk, sums.memory),
        Value::Free(free) => put_amounts(
            line,
            u64::from(free.containers),
            u64::from(free.disk),
            u64::from(free.memory),
        ),
        Value::Zones(zones) => put_zones(line, zones),
        Value::Lacks(reasons) => put_lacks(line, reasons),
        Value::Verdicts(each) => put_verdicts(line, each),
    }
}

fn put_name_or_null(line: &mut Writer, name: &Option<Name>) -> Result<(), AllocError>
    ensures { OnOk result (AddsValue line.old line.new (optional_name_data name.now)) }
{
    match name {
        Some(name) => line.string(name.as_str()),
        None => line.null(),
    }
}

fn put_job(line: &mut Writer, alloc: Global, job: &JobName) -> Result<(), AllocError>
    ensures { OnOk result (AddsValue line.old line.new (string (job_text job.now))) }
{
    let text = job_text(alloc, job)?;
    line.string(text.as_str())
}

fn put_names(line: &mut Writer, names: &[Name]) -> Result<(), AllocError>
    ensures { OnOk result (AddsValue line.old line.new (names_data names.now)) }
{
    begin_list(line)?;
    add_names(line, names)?;
    end_list(line)
}

fn add_names(line: &mut Writer, names: &[Name]) -> Result<(), AllocError>
    ensures { OnOk result
        (AddsTokens line.old line.new (flat_map item_tokens (map string names.now))) }
{
    for name in names {
        line.string(name.as_str())?;
    }
    Ok(())
}

fn put_tags(line: &mut Writer, tags: &[Option<Name>]) -> Result<(), AllocError>
    ensures { OnOk result (AddsValue line.old line.new (tags_data tags.now)) }
{
    begin_list(line)?;
    add_tags(line, tags)?;
    end_list(line)
}

fn add_tags(line: &mut Writer, tags: &[Option<Name>]) -> Result<(), AllocError>
    ensures { OnOk result
        (AddsTokens line.old line.new (flat_map item_tokens (map optional_name_data tags.now))) }
{
    for tag in tags {
        put_name_or_null(line, tag)?;
    }
    Ok(())
}
