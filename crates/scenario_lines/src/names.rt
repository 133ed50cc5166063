//! Names in a line.
ghost use Rattle.std.specs.Prelude.{◌≡◌, map};
ghost use Rattle.serde_json.specs.View.{view};
ghost use Rattle.scenario_lines.specs.Flaws.{GivesContent};
ghost use Rattle.scenario_lines.specs.Names.{name_as, name_given, name_said, names_as, names_in, names_said, optional_name_in};
ghost use Rattle.scenario_lines.specs.Places.{object_of};

use crate::flaw::{Flaw, LineError};
use crate::member::Member;
use crate::members::Members;
use diego_names::{List, Name};
use serde_json::Value;
use std::alloc::Global;

fn name_of(text: &str) -> Result<Name, Flaw>
    ensures { result ≡ name_said text.now }
{
    match Name::read(text.as_bytes()) {
        Ok(name) => Ok(name),
        Err(_) => Err(Flaw::BadName),
    }
}

/// The name that a value is.
#[tactic(auto, unfolding(crate::specs::Names::name_as))]
pub fn name_as(value: &Value) -> Result<Name, Flaw>
    ensures { result ≡ name_as (view value.now) }
{
    match value.as_str() {
        Some(text) => name_of(text),
        None => Err(Flaw::BadShape),
    }
}

/// The name of a member.
#[tactic(auto, unfolding(crate::specs::Names::name_given))]
pub(crate) fn name_in(members: &Members<'_>, member: Member) -> Result<Name, Flaw>
    ensures { result ≡ name_given member (object_of members.now.object.now) }
{
    match members.said_for(member) {
        Some(said) => name_as(said),
        None => Err(Flaw::BadShape),
    }
}

/// The name of a member, or none where it isn't there.
#[tactic(auto, unfolding(crate::specs::Names::optional_name_in))]
pub(crate) fn optional_name_in(members: &Members<'_>, member: Member) -> Result<Option<Name>, Flaw>
    ensures { result ≡ optional_name_in member (object_of members.now.object.now) }
{
    if members.has(member) {
        Ok(Some(name_in(members, member)?))
    } else {
        Ok(None)
    }
}

/// The names in the list of a member, or none where it isn't there.
#[tactic(auto, unfolding(crate::specs::Names::names_in))]
pub(crate) fn names_in(
    alloc: Global,
    members: &Members<'_>,
    member: Member,
) -> Result<List<Name>, LineError>
    ensures { GivesContent (λ names. names) result
        (names_in member (object_of members.now.object.now)) }
{
    match members.said_for(member) {
        Some(said) => names_as(alloc, said),
        None => Ok(List::new(alloc)),
    }
}

#[tactic(auto, unfolding(crate::specs::Names::names_as))]
fn names_as(alloc: Global, value: &Value) -> Result<List<Name>, LineError>
    ensures { GivesContent (λ names. names) result (names_as (view value.now)) }
{
    match value.as_array() {
        Some(items) => names_of(alloc, items.as_slice()),
        None => Err(LineError::Flawed(Flaw::BadShape)),
    }
}

fn names_of(alloc: Global, items: &[Value]) -> Result<List<Name>, LineError>
    ensures { GivesContent (λ names. names) result (names_said (map view items.now)) }
{
    let mut names = List::new(alloc);
    for item in items {
        names.push(name_as(item)?)?;
    }
    Ok(names)
}
