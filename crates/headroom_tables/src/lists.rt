//! Entries that tell several things.
ghost use Rattle.std.specs.Prelude.{◌≡◌, ◌++◌, IfOk, OnOk, codes, string_bytes};
ghost use Rattle.std.specs.List.{flat_map};
ghost use Rattle.text_table.specs.Texts.{entries_of};
ghost use Rattle.headroom_print.specs.Words.{counts_of};
ghost use Rattle.headroom_tables.specs.Entries.{lack_parts, lacks_text, names_text, tags_text, zone_part, zones_in_brackets, zones_text};
ghost use Rattle.headroom_tables.specs.Layout.{joined};

use crate::entries::tag_text;
use crate::layout::{add_text, joined};
use diego_names::Name;
use forecast_records::ZoneCount;
use headroom_print::{LackCount, lacking};
use room_facts::Reasons;
use std::alloc::{AllocError, Global};

/// Names, with a space between them.
pub(crate) fn names_text(alloc: Global, names: &[Name]) -> Result<String, AllocError>
    ensures { IfOk result (λ text. string_bytes text ≡ names_text names.now) }
{
    let mut parts = Vec::new(alloc);
    for name in names {
        let part = String::from_str(alloc, name.as_str())?;
        add_text(&mut parts, part)?;
    }
    joined(alloc, " ", &parts)
}

/// Tags, with a space between them.
pub(crate) fn tags_text(alloc: Global, tags: &[Option<Name>]) -> Result<String, AllocError>
    ensures { IfOk result (λ text. string_bytes text ≡ tags_text tags.now) }
{
    let mut parts = Vec::new(alloc);
    for tag in tags {
        let part = tag_text(alloc, tag)?;
        add_text(&mut parts, part)?;
    }
    joined(alloc, " ", &parts)
}

fn zone_part(alloc: Global, zone: &ZoneCount) -> Result<String, AllocError>
    ensures { IfOk result (λ text. string_bytes text ≡ zone_part zone.now) }
{
    let name = zone.zone;
    let instances = zone.instances;
    format!(in alloc; "{name} {instances}")
}

/// How many instances each zone has.
pub(crate) fn zones_text(alloc: Global, zones: &[ZoneCount]) -> Result<String, AllocError>
    ensures { IfOk result (λ text. string_bytes text ≡ zones_text zones.now) }
{
    let mut parts = Vec::new(alloc);
    for zone in zones {
        let part = zone_part(alloc, zone)?;
        add_text(&mut parts, part)?;
    }
    joined(alloc, ", ", &parts)
}

/// The same behind a count: in brackets, and nothing where there is no zone.
pub(crate) fn zones_in_brackets(alloc: Global, zones: &[ZoneCount]) -> Result<String, AllocError>
    ensures { IfOk result (λ text. string_bytes text ≡ zones_in_brackets zones.now) }
{
    if zones.is_empty() {
        return Ok(String::new(alloc));
    }
    let inside = zones_text(alloc, zones)?;
    format!(in alloc; " ({inside})")
}

// What no cell lacks isn't told.
fn add_lack(parts: &mut Vec<String>, alloc: Global, lack: &LackCount) -> Result<(), AllocError>
    ensures { OnOk result (entries_of parts.new.items
        ≡ entries_of parts.old.items ++ lack_parts (lack.now.0.now, lack.now.1)) }
{
    let amounts = lack.0;
    let cells = lack.1;
    if cells == 0 {
        return Ok(());
    }
    let part = format!(in alloc; "{cells} {amounts}")?;
    add_text(parts, part)
}

fn counts_text(alloc: Global, lacks: &[LackCount]) -> Result<String, AllocError>
    ensures { IfOk result (λ text. string_bytes text
        ≡ joined (codes ", ") (flat_map lack_parts (counts_of lacks.now))) }
{
    let mut parts = Vec::new(alloc);
    for lack in lacks {
        add_lack(&mut parts, alloc, lack)?;
    }
    joined(alloc, ", ", &parts)
}

/// What the cells of a job's tag lack.
pub(crate) fn lacks_text(alloc: Global, reasons: &Reasons) -> Result<String, AllocError>
    ensures { IfOk result (λ text. string_bytes text ≡ lacks_text reasons.now) }
{
    if reasons.cells == reasons.other_tag {
        return String::from_str(alloc, "none has the tag");
    }
    counts_text(alloc, &lacking(reasons))
}
