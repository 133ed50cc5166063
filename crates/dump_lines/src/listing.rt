//! Lists of what is read, one item after another.
ghost use Rattle.std.specs.Prelude.{◌≡◌, [], IfOk, map, option_map};
ghost use Rattle.serde_json.specs.View.{view};
ghost use Rattle.dump_lines.specs.Listing.{all_from, all_in, list_in, with_next};
ghost use Rattle.dump_lines.specs.Values.{name_as};

use crate::fault::LineFault;
use crate::members::said;
use crate::values::{list_of, name_as};
use diego_names::{List, Name, OutOfMemory};
use serde_json::Value;
use std::alloc::Global;

/// What was read so far, and one thing more.
pub(crate) fn with_next<T: Drop>(
    so_far: Result<List<T>, LineFault>,
    next: Result<T, LineFault>,
) -> Result<Result<List<T>, LineFault>, OutOfMemory>
    ensures { IfOk result (λ read. read ≡ with_next so_far next) }
{
    match so_far {
        Ok(mut items) => match next {
            Ok(item) => {
                items.push(item)?;
                Ok(Ok(items))
            }
            Err(fault) => Ok(Err(fault)),
        },
        Err(fault) => match next {
            Ok(_) => Ok(Err(fault)),
            Err(second) => Ok(Err(fault.or_before(second))),
        },
    }
}

/// The items in the list of a member; there are none where it isn't there.
#[tactic(auto, unfolding(crate::specs::Listing::list_in))]
pub(crate) fn list_in<'v>(value: &'v Value, member: &str) -> Option<&'v [Value]>
    ensures { option_map (λ items. map view items.now) result
        ≡ list_in member.now (view value.now) }
{
    match said(value, member) {
        Some(given) => list_of(given),
        None => Some(&[]),
    }
}

fn names_of(alloc: Global, items: &[Value]) -> Result<Result<List<Name>, LineFault>, OutOfMemory>
    ensures { IfOk result (λ read. read ≡ all_from name_as (Ok []) (map view items.now)) }
{
    let mut so_far = Ok(List::new(alloc));
    for item in items {
        so_far = with_next(so_far, name_as(item))?;
    }
    Ok(so_far)
}

/// The names in the list of a member, or none where it isn't there.
#[tactic(auto, unfolding(crate::specs::Listing::all_in))]
pub(crate) fn names_or_none(
    alloc: Global,
    value: &Value,
    member: &str,
) -> Result<Result<List<Name>, LineFault>, OutOfMemory>
    ensures { IfOk result (λ read. read ≡ all_in name_as member.now (view value.now)) }
{
    match list_in(value, member) {
        Some(items) => names_of(alloc, items),
        None => Ok(Err(LineFault::BadShape)),
    }
}
