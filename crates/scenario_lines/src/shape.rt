//! The shape of a line: it has the members of its form, each of its kind, and no others.
ghost use Rattle.std.specs.Prelude.{◌≡◌, ◌==◌, string_bytes};
ghost use Rattle.std.specs.BTreeMap.{keys};
ghost use Rattle.std.specs.List.{list_all, list_any};
ghost use Rattle.scenario_lines.specs.Shapes.{has_known, has_shape, is_fit, is_known, is_given, shaped};
ghost use Rattle.scenario_lines.specs.Places.{object_of, place};

use crate::flaw::Flaw;
use crate::form::Form;
use crate::form_of::form_of;
use crate::member::Member;
use crate::members::Members;
use serde_json::{Map, Value};

/// The form of a line, where the line has its shape.
#[tactic(auto, unfolding(crate::specs::Shapes::shaped))]
pub(crate) fn shaped(members: &Members<'_>) -> Result<Form, Flaw>
    ensures { result ≡ shaped (object_of members.now.object.now) }
{
    match form_of(members) {
        Some(form) if has_shape(form, members) => Ok(form),
        _ => Err(Flaw::BadShape),
    }
}

#[tactic(auto, unfolding(crate::specs::Shapes::has_shape))]
fn has_shape(form: Form, members: &Members<'_>) -> bool
    ensures { result ≡ has_shape form (object_of members.now.object.now) }
{
    has_known(form, members) && are_there(form.needs(), members) && are_fit(form.allows(), members)
}

#[tactic(auto, unfolding(crate::specs::Shapes::has_known))]
fn has_known(form: Form, members: &Members<'_>) -> bool
    ensures { result ≡ has_known form (object_of members.now.object.now) }
{
    are_known(form, members.object)
}

fn are_known(form: Form, object: &Map<String, Value>) -> bool
    ensures { result ≡ list_all (λ name. is_known form (string_bytes name)) (keys object.now) }
{
    object.keys().all(|name| is_known(form, name.as_str()))
}

fn is_known(form: Form, name: &str) -> bool
    ensures { result ≡ is_known form name.now }
{
    match Member::named(name) {
        Some(member) => is_among(form.needs(), member) || is_among(form.allows(), member),
        None => false,
    }
}

// Members are told apart by their places.
fn is_among(members: &[Member], member: Member) -> bool
    ensures { result ≡ list_any (λ one. place one == place member) members.now }
{
    members.iter().any(|one| one.place() == member.place())
}

fn are_there(needed: &[Member], members: &Members<'_>) -> bool
    ensures { result ≡ list_all (is_given (object_of members.now.object.now)) needed.now }
{
    needed.iter().all(|member| is_there(*member, members))
}

fn are_fit(allowed: &[Member], members: &Members<'_>) -> bool
    ensures { result ≡ list_all (is_fit (object_of members.now.object.now)) allowed.now }
{
    allowed.iter().all(|member| is_fit(*member, members))
}

fn is_there(member: Member, members: &Members<'_>) -> bool
    ensures { result ≡ is_given (object_of members.now.object.now) member }
{
    match members.said_for(member) {
        Some(said) => member.kind().is_of(said),
        None => false,
    }
}

fn is_fit(member: Member, members: &Members<'_>) -> bool
    ensures { result ≡ is_fit (object_of members.now.object.now) member }
{
    match members.said_for(member) {
        Some(said) => member.kind().is_of(said),
        None => true,
    }
}
