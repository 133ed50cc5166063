//! The members of an object that are numbers, names and words, each needed or with what it is where it lacks.
ghost use Rattle.std.specs.Prelude.{◌≡◌, option_map};
ghost use Rattle.serde_json.specs.View.{view};
ghost use Rattle.dump_lines.specs.Members.{has, is_filled_in, is_word_in, is_word_or, name_in, number_in, number_or, said, text_in, truth_in};

use crate::fault::LineFault;
use crate::values::{is_filled, name_as, number_as, truth_as};
use diego_names::Name;
use serde_json::Value;

/// What a value says for a member; one that is no object says nothing.
#[tactic(auto, unfolding(crate::specs::Members::said))]
pub(crate) fn said<'v>(value: &'v Value, member: &str) -> Option<&'v Value>
    ensures { option_map (λ v. view v.now) result ≡ said member.now (view value.now) }
{
    value.get(member)
}

pub(crate) fn has(value: &Value, member: &str) -> bool
    ensures { result ≡ has member.now (view value.now) }
{
    said(value, member).is_some()
}

#[tactic(auto, unfolding(crate::specs::Members::number_in))]
pub(crate) fn number_in(value: &Value, member: &str) -> Result<u32, LineFault>
    ensures { result ≡ number_in member.now (view value.now) }
{
    match said(value, member) {
        Some(given) => number_as(given),
        None => Err(LineFault::BadShape),
    }
}

/// The number of a member, or another one where it isn't there.
#[tactic(auto, unfolding(crate::specs::Members::number_or))]
pub(crate) fn number_or(other: u32, value: &Value, member: &str) -> Result<u32, LineFault>
    ensures { result ≡ number_or other member.now (view value.now) }
{
    match said(value, member) {
        Some(given) => number_as(given),
        None => Ok(other),
    }
}

/// Whether a member is true; where it isn't there it is false.
#[tactic(auto, unfolding(crate::specs::Members::truth_in))]
pub(crate) fn truth_in(value: &Value, member: &str) -> Result<bool, LineFault>
    ensures { result ≡ truth_in member.now (view value.now) }
{
    match said(value, member) {
        Some(given) => truth_as(given),
        None => Ok(false),
    }
}

#[tactic(auto, unfolding(crate::specs::Members::name_in))]
pub(crate) fn name_in(value: &Value, member: &str) -> Result<Name, LineFault>
    ensures { result ≡ name_in member.now (view value.now) }
{
    match said(value, member) {
        Some(given) => name_as(given),
        None => Err(LineFault::BadShape),
    }
}

/// Whether the list of a member has items; it has none where it isn't there.
#[tactic(auto, unfolding(crate::specs::Members::is_filled_in))]
pub(crate) fn is_filled_in(value: &Value, member: &str) -> Result<bool, LineFault>
    ensures { result ≡ is_filled_in member.now (view value.now) }
{
    match said(value, member) {
        Some(given) => is_filled(given),
        None => Ok(false),
    }
}

/// The text of a member.
#[tactic(auto, unfolding(crate::specs::Members::text_in))]
pub(crate) fn text_in<'v>(value: &'v Value, member: &str) -> Option<&'v str>
    ensures { option_map (λ text. text.now) result ≡ text_in member.now (view value.now) }
{
    said(value, member)?.as_str()
}

/// Whether the text of a member is a word, in whatever letter case.
#[tactic(auto, unfolding(crate::specs::Members::is_word_in))]
pub(crate) fn is_word_in(value: &Value, member: &str, word: &str) -> Result<bool, LineFault>
    ensures { result ≡ is_word_in word.now member.now (view value.now) }
{
    match text_in(value, member) {
        Some(text) => Ok(text.eq_ignore_ascii_case(word)),
        None => Err(LineFault::BadShape),
    }
}

/// Likewise, with what holds where the member isn't there.
#[tactic(auto, unfolding(crate::specs::Members::is_word_or))]
pub(crate) fn is_word_or(
    other: bool,
    value: &Value,
    member: &str,
    word: &str,
) -> Result<bool, LineFault>
    ensures { result ≡ is_word_or other word.now member.now (view value.now) }
{
    if has(value, member) {
        is_word_in(value, member, word)
    } else {
        Ok(other)
    }
}
