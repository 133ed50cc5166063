//! The members of a line: numbers, names and words.
ghost use Rattle.std.specs.Prelude.{◌≡◌, option_map};
ghost use Rattle.serde_json.specs.View.{view};
ghost use Rattle.lock_lines.specs.Members.{long_number_in, name_in, number_in, said, text_in};

use diego_names::Name;
use scenario_lines::{Flaw, name_as, number_of};
use serde_json::Value;

// What a value says for a member; one that is no object says nothing.
#[tactic(auto, unfolding(crate::specs::Members::said))]
fn said<'v>(value: &'v Value, member: &str) -> Option<&'v Value>
    ensures { option_map (λ v. view v.now) result ≡ said member.now (view value.now) }
{
    value.get(member)
}

/// The number of a member, which 32 bits hold.
#[tactic(auto, unfolding(crate::specs::Members::number_in))]
pub(crate) fn number_in(value: &Value, member: &str) -> Result<u32, Flaw>
    ensures { result ≡ number_in member.now (view value.now) }
{
    match said(value, member) {
        Some(given) => number_of(given).ok_or(Flaw::BadShape),
        None => Err(Flaw::BadShape),
    }
}

/// The number of a member, which 64 bits hold.
#[tactic(auto, unfolding(crate::specs::Members::long_number_in))]
pub(crate) fn long_number_in(value: &Value, member: &str) -> Result<u64, Flaw>
    ensures { result ≡ long_number_in member.now (view value.now) }
{
    said(value, member)
        .and_then(Value::as_u64)
        .ok_or(Flaw::BadShape)
}

/// The name of a member.
#[tactic(auto, unfolding(crate::specs::Members::name_in))]
pub(crate) fn name_in(value: &Value, member: &str) -> Result<Name, Flaw>
    ensures { result ≡ name_in member.now (view value.now) }
{
    match said(value, member) {
        Some(given) => name_as(given),
        None => Err(Flaw::BadShape),
    }
}

/// The text of a member.
#[tactic(auto, unfolding(crate::specs::Members::text_in))]
pub(crate) fn text_in<'v>(value: &'v Value, member: &str) -> Option<&'v str>
    ensures { option_map (λ text. text.now) result ≡ text_in member.now (view value.now) }
{
    said(value, member)?.as_str()
}
