//! What single values are.
ghost use Rattle.std.specs.Prelude.{◌≡◌, map, option_map};
ghost use Rattle.serde_json.specs.Find.{as_array};
ghost use Rattle.serde_json.specs.View.{view};
ghost use Rattle.dump_lines.specs.Values.{is_filled, items_in, list_said, name_as, name_said, number_as, number_said, truth_as};

use crate::fault::{LineFault, or_shape};
use diego_names::Name;
use serde_json::Value;

fn number_of(value: &Value) -> Option<u32>
    ensures { result ≡ number_said (view value.now) }
{
    u32::try_from(value.as_u64()?).ok()
}

/// The whole number that a value is.
pub(crate) fn number_as(value: &Value) -> Result<u32, LineFault>
    ensures { result ≡ number_as (view value.now) }
{
    or_shape(number_of(value))
}

pub(crate) fn truth_as(value: &Value) -> Result<bool, LineFault>
    ensures { result ≡ truth_as (view value.now) }
{
    or_shape(value.as_bool())
}

/// The name that a text is.
pub(crate) fn name_of(text: &str) -> Result<Name, LineFault>
    ensures { result ≡ name_said text.now }
{
    match Name::read(text.as_bytes()) {
        Ok(name) => Ok(name),
        Err(_) => Err(LineFault::BadName),
    }
}

/// The name that a value is.
#[tactic(auto, unfolding(crate::specs::Values::name_as))]
pub(crate) fn name_as(value: &Value) -> Result<Name, LineFault>
    ensures { result ≡ name_as (view value.now) }
{
    match value.as_str() {
        Some(text) => name_of(text),
        None => Err(LineFault::BadShape),
    }
}

fn array_of(value: &Value) -> Option<&[Value]>
    ensures { option_map (λ items. map view items.now) result
        ≡ option_map items_in (as_array (view value.now)) }
{
    match value.as_array() {
        Some(items) => Some(items.as_slice()),
        None => None,
    }
}

/// The items of a list; `null` has none.
pub(crate) fn list_of(value: &Value) -> Option<&[Value]>
    ensures { option_map (λ items. map view items.now) result ≡ list_said (view value.now) }
{
    if value.is_null() {
        Some(&[])
    } else {
        array_of(value)
    }
}

/// Whether a list has items.
#[tactic(auto, unfolding(crate::specs::Values::is_filled))]
pub(crate) fn is_filled(value: &Value) -> Result<bool, LineFault>
    ensures { result ≡ is_filled (view value.now) }
{
    match list_of(value) {
        Some(items) => Ok(!items.is_empty()),
        None => Err(LineFault::BadShape),
    }
}
