//! What an entry of a table may be, and its text.
ghost use Rattle.std.specs.Prelude.{◌≡◌, ◌-◌, IfOk, length, string_bytes};
ghost use Rattle.headroom_tables.specs.Entries.{amount, bound_text, last_name, tag_text, waited_text};
ghost use Rattle.headroom_tables.specs.Written.{entry_text};

use crate::lists::{lacks_text, names_text, tags_text, zones_in_brackets, zones_text};
use diego_names::Name;
use forecast_records::{Unplaced, ZoneCount};
use room_facts::Reasons;
use std::alloc::{AllocError, Global};

/// What an entry of a table may be, or a part of a line.
#[derive(Clone, Copy)]
pub(crate) enum Entry<'a> {
    Number(u64),
    /// Memory or disk, in MB.
    Amount(u64),
    Text(&'a str),
    Name(&'a Name),
    Tag(&'a Option<Name>),
    Names(&'a [Name]),
    Tags(&'a [Option<Name>]),
    /// How many instances each zone has.
    Zones(&'a [ZoneCount]),
    ZonesInBrackets(&'a [ZoneCount]),
    /// How many cells lack what.
    Lacks(&'a Reasons),
    /// How many jobs are as large as this one, and how many of them have room.
    Bound(&'a Unplaced),
}

/// The text of an entry.
pub(crate) fn entry_text(alloc: Global, entry: &Entry) -> Result<String, AllocError>
    ensures { IfOk result (λ text. string_bytes text ≡ entry_text entry.now) }
{
    match entry {
        Entry::Number(number) => number.to_string(alloc),
        Entry::Amount(mb) => amount(alloc, *mb),
        Entry::Text(text) => String::from_str(alloc, text),
        Entry::Name(name) => String::from_str(alloc, name.as_str()),
        Entry::Tag(tag) => tag_text(alloc, tag),
        Entry::Names(names) => names_text(alloc, names),
        Entry::Tags(tags) => tags_text(alloc, tags),
        Entry::Zones(zones) => zones_text(alloc, zones),
        Entry::ZonesInBrackets(zones) => zones_in_brackets(alloc, zones),
        Entry::Lacks(reasons) => lacks_text(alloc, reasons),
        Entry::Bound(job) => bound_text(alloc, job),
    }
}

// Below 10,240 MB as MB, else as whole GB.
#[tactic(auto, unfolding(crate::specs::Entries::amount))]
fn amount(alloc: Global, mb: u64) -> Result<String, AllocError>
    ensures { IfOk result (λ text. string_bytes text ≡ amount mb) }
{
    if mb < 10_240 {
        return format!(in alloc; "{mb}M");
    }
    let gb = mb / 1024;
    format!(in alloc; "{gb}G")
}

/// A tag; a dash for work and cells without one.
pub(crate) fn tag_text(alloc: Global, tag: &Option<Name>) -> Result<String, AllocError>
    ensures { IfOk result (λ text. string_bytes text ≡ tag_text tag.now) }
{
    match tag {
        Some(name) => String::from_str(alloc, name.as_str()),
        None => String::from_str(alloc, "-"),
    }
}

// The bound stands there only where it shows that there is too little.
fn bound_text(alloc: Global, job: &Unplaced) -> Result<String, AllocError>
    ensures { IfOk result (λ text. string_bytes text ≡ bound_text job.now) }
{
    let as_large = job.as_large;
    let room_for = job.room_for;
    if room_for < as_large {
        return format!(in alloc; "{as_large}, room for {room_for}");
    }
    String::from_str(alloc, "-")
}

/// Whether a job waited before anything was lost.
pub(crate) fn waited_text(waited: bool) -> &'static str
    ensures { result.now ≡ waited_text waited }
{
    if waited { "yes" } else { "" }
}

/// The last of some names, if there is one.
pub(crate) fn last_name(names: &[Name]) -> &str
    ensures { result.now ≡ last_name names.now }
{
    match names.last() {
        Some(name) => name.as_str(),
        None => "",
    }
}
