//! Which operation a line asks for, and which members a line with it has.
ghost use Rattle.std.specs.Prelude.{◌≡◌, string_bytes};
ghost use Rattle.std.specs.BTreeMap.{keys};
ghost use Rattle.std.specs.List.{list_all};
ghost use Rattle.serde_json.specs.View.{view};
ghost use Rattle.lock_lines.specs.Operations.{has_only, is_in_each, is_known, operation_in, operation_named};

use crate::members::text_in;
use serde_json::{Map, Value};

/// The operations of a locket.
#[derive(Clone, Copy, Debug, PartialEq, Eq)]
pub enum Operation {
    Acquire,
    Renew,
    Release,
}

fn operation_named(word: &str) -> Option<Operation>
    ensures { result ≡ operation_named word.now }
{
    match word {
        "acquire" => Some(Operation::Acquire),
        "renew" => Some(Operation::Renew),
        "release" => Some(Operation::Release),
        _ => None,
    }
}

/// The operation that a line asks for.
#[tactic(auto, unfolding(crate::specs::Operations::operation_in))]
pub(crate) fn operation_in(value: &Value) -> Option<Operation>
    ensures { result ≡ operation_in (view value.now) }
{
    operation_named(text_in(value, "op")?)
}

fn is_in_each(name: &str) -> bool
    ensures { result ≡ is_in_each name.now }
{
    name == "at" || name == "op" || name == "owner"
}

fn is_known(operation: Operation, name: &str) -> bool
    ensures { result ≡ is_known operation name.now }
{
    match operation {
        Operation::Acquire => is_in_each(name) || name == "ttl",
        Operation::Renew => is_in_each(name) || name == "ttl" || name == "fence",
        Operation::Release => is_in_each(name) || name == "fence",
    }
}

fn are_known(operation: Operation, object: &Map<String, Value>) -> bool
    ensures { result ≡ list_all (λ name. is_known operation (string_bytes name)) (keys object.now) }
{
    object.keys().all(|name| is_known(operation, name.as_str()))
}

/// Whether a line with this operation has no members but its own.
#[tactic(auto, unfolding(crate::specs::Operations::has_only))]
pub(crate) fn has_only(operation: Operation, value: &Value) -> bool
    ensures { result ≡ has_only operation (view value.now) }
{
    match value.as_object() {
        Some(object) => are_known(operation, object),
        None => false,
    }
}
