//! Members of an object, each written behind the one before. What may be absent is null then.
ghost use Rattle.std.specs.Prelude.{◌∷◌, [], OnOk};
ghost use Rattle.serde_json.specs.Data.{boolean, null, string};
ghost use Rattle.line_writing.specs.Spelled.{optional_instance_data, optional_name_data, optional_number_data, optional_truth_data, whole};
ghost use Rattle.json.specs.Token.{begin_array, begin_object, end_array, end_object, key as a_key};
ghost use Rattle.line_writing.specs.Writing.{AddsMember, AddsTokens};

use crate::spelled::instance_text;
use diego_names::{Instance, Name};
use json::Writer;
use std::alloc::{AllocError, Global};

/// An object begins. It has to be ended behind its members.
pub fn begin(line: &mut Writer) -> Result<(), AllocError>
    ensures { OnOk result (AddsTokens line.old line.new (begin_object ∷ [])) }
{
    line.begin_object()
}

pub fn end(line: &mut Writer) -> Result<(), AllocError>
    ensures { OnOk result (AddsTokens line.old line.new (end_object ∷ [])) }
{
    line.end_object()
}

/// A list begins. It has to be ended behind its items.
pub fn begin_list(line: &mut Writer) -> Result<(), AllocError>
    ensures { OnOk result (AddsTokens line.old line.new (begin_array ∷ [])) }
{
    line.begin_array()
}

pub fn end_list(line: &mut Writer) -> Result<(), AllocError>
    ensures { OnOk result (AddsTokens line.old line.new (end_array ∷ [])) }
{
    line.end_array()
}

/// The name of a member, whose value comes next.
pub fn put_key(line: &mut Writer, key: &str) -> Result<(), AllocError>
    ensures { OnOk result (AddsTokens line.old line.new (a_key key.now ∷ [])) }
{
    line.key(key)
}

pub fn put_number(line: &mut Writer, key: &str, number: u64) -> Result<(), AllocError>
    ensures { OnOk result (AddsMember line.old line.new key.now (whole number)) }
{
    line.key(key)?;
    line.u64(number)
}

pub fn put_text(line: &mut Writer, key: &str, text: &str) -> Result<(), AllocError>
    ensures { OnOk result (AddsMember line.old line.new key.now (string text.now)) }
{
    line.key(key)?;
    line.string(text)
}

pub fn put_truth(line: &mut Writer, key: &str, truth: bool) -> Result<(), AllocError>
    ensures { OnOk result (AddsMember line.old line.new key.now (boolean truth)) }
{
    line.key(key)?;
    line.boolean(truth)
}

fn put_null(line: &mut Writer, key: &str) -> Result<(), AllocError>
    ensures { OnOk result (AddsMember line.old line.new key.now null) }
{
    line.key(key)?;
    line.null()
}

pub fn put_optional_number(
    line: &mut Writer,
    key: &str,
    number: Option<u64>,
) -> Result<(), AllocError>
    ensures { OnOk result (AddsMember line.old line.new key.now (optional_number_data number)) }
{
    match number {
        Some(number) => put_number(line, key, number),
        None => put_null(line, key),
    }
}

pub fn put_optional_name(
    line: &mut Writer,
    key: &str,
    name: &Option<Name>,
) -> Result<(), AllocError>
    ensures { OnOk result (AddsMember line.old line.new key.now (optional_name_data name.now)) }
{
    match name {
        Some(name) => put_text(line, key, name.as_str()),
        None => put_null(line, key),
    }
}

pub fn put_optional_instance(
    line: &mut Writer,
    alloc: Global,
    key: &str,
    instance: &Option<Instance>,
) -> Result<(), AllocError>
    ensures { OnOk result
        (AddsMember line.old line.new key.now (optional_instance_data instance.now)) }
{
    match instance {
        Some(instance) => put_text(line, key, &instance_text(alloc, instance)?),
        None => put_null(line, key),
    }
}

pub fn put_optional_truth(
    line: &mut Writer,
    key: &str,
    truth: Option<bool>,
) -> Result<(), AllocError>
    ensures { OnOk result (AddsMember line.old line.new key.now (optional_truth_data truth)) }
{
    match truth {
        Some(truth) => put_truth(line, key, truth),
        None => put_null(line, key),
    }
}
