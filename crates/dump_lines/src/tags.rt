//! Placement tags: one at most is modelled.
ghost use Rattle.std.specs.Prelude.{◌≡◌, map};
ghost use Rattle.serde_json.specs.View.{view};
ghost use Rattle.dump_lines.specs.Tags.{first_tag_in, first_tag_of, tag_as, tag_in, tags_from, with_tag, same_tag};

use crate::fault::{LineFault, both};
use crate::members::said;
use crate::values::{list_of, name_as};
use diego_names::Name;
use serde_json::Value;

// The one tag of two that are told.
fn same_tag(so_far: Option<Name>, tag: Name) -> Result<Option<Name>, LineFault>
    ensures { result ≡ same_tag so_far tag }
{
    match so_far {
        Some(other) if other != tag => Err(LineFault::BadTags),
        _ => Ok(Some(tag)),
    }
}

fn with_tag(
    so_far: Result<Option<Name>, LineFault>,
    tag: Result<Name, LineFault>,
) -> Result<Option<Name>, LineFault>
    ensures { result ≡ with_tag so_far tag }
{
    let (so_far, tag) = both(so_far, tag)?;
    same_tag(so_far, tag)
}

fn tag_of(items: &[Value]) -> Result<Option<Name>, LineFault>
    ensures { result ≡ tags_from (Ok None) (map view items.now) }
{
    let mut so_far = Ok(None);
    for item in items {
        so_far = with_tag(so_far, name_as(item));
    }
    so_far
}

#[tactic(auto, unfolding(crate::specs::Tags::tag_as))]
fn tag_as(value: &Value) -> Result<Option<Name>, LineFault>
    ensures { result ≡ tag_as (view value.now) }
{
    match list_of(value) {
        Some(items) => tag_of(items),
        None => Err(LineFault::BadShape),
    }
}

/// The tag in the list of a member, if it has one.
#[tactic(auto, unfolding(crate::specs::Tags::tag_in))]
pub(crate) fn tag_in(value: &Value, member: &str) -> Result<Option<Name>, LineFault>
    ensures { result ≡ tag_in member.now (view value.now) }
{
    match said(value, member) {
        Some(given) => tag_as(given),
        None => Ok(None),
    }
}

// The first of two tags that is there.
#[tactic(auto, unfolding(crate::specs::Tags::first_tag_of))]
fn first_tag_of(
    one: Result<Option<Name>, LineFault>,
    other: Result<Option<Name>, LineFault>,
) -> Result<Option<Name>, LineFault>
    ensures { result ≡ first_tag_of one other }
{
    let (one, other) = both(one, other)?;
    match one {
        Some(tag) => Ok(Some(tag)),
        None => Ok(other),
    }
}

/// The tag of a task or of a process: that of the first of two lists that has one.
#[tactic(auto, unfolding(crate::specs::Tags::first_tag_in))]
pub(crate) fn first_tag_in(value: &Value) -> Result<Option<Name>, LineFault>
    ensures { result ≡ first_tag_in (view value.now) }
{
    first_tag_of(
        tag_in(value, "placement_tags"),
        tag_in(value, "PlacementTags"),
    )
}
