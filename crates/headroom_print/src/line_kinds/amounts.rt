//! The lines of what zones have.
ghost use Rattle.std.specs.Prelude.{◌≡◌, ◌++◌, OnOk};
ghost use Rattle.std.specs.List.{flat_map};
ghost use Rattle.headroom_print.specs.AmountLines.{zone_now_line, zone_then_line};

use crate::line_kinds::object::add_line;
use crate::line_kinds::value::{Member, Value};
use forecast_records::{ZoneNow, ZoneThen};
use std::alloc::{AllocError, Global};

/// The zones in their order.
pub(crate) fn add_zones_now(
    text: &mut Vec<u8>,
    alloc: Global,
    line: u32,
    zones: &[ZoneNow],
) -> Result<(), AllocError>
    ensures { OnOk result
        (text.new.items ≡ text.old.items ++ flat_map (zone_now_line line) zones.now) }
{
    for zone in zones {
        add_zone_now(text, alloc, line, zone)?;
    }
    Ok(())
}

// What the cells of a zone and tag have now.
#[tactic(auto, unfolding(crate::specs::AmountLines::zone_now_line))]
fn add_zone_now(
    text: &mut Vec<u8>,
    alloc: Global,
    line: u32,
    zone: &ZoneNow,
) -> Result<(), AllocError>
    ensures { OnOk result (text.new.items ≡ text.old.items ++ zone_now_line line zone.now) }
{
    add_line(
        text,
        alloc,
        &[
            Member("cells", Value::Number(zone.of.cells)),
            Member("free", Value::Sums(&zone.of.free)),
            Member("instances", Value::Number(zone.instances)),
            Member("line", Value::Number(u64::from(line))),
            Member("most_free", Value::Free(&zone.most_free)),
            Member("tag", Value::NameOrNull(&zone.of.tag)),
            Member("tell", Value::Text("amounts")),
            Member("total", Value::Sums(&zone.of.total)),
            Member("zone", Value::Name(&zone.of.zone)),
        ],
    )
}

/// The zones in their order.
pub(crate) fn add_zones_then(
    text: &mut Vec<u8>,
    alloc: Global,
    line: u32,
    zones: &[ZoneThen],
) -> Result<(), AllocError>
    ensures { OnOk result
        (text.new.items ≡ text.old.items ++ flat_map (zone_then_line line) zones.now) }
{
    for zone in zones {
        add_zone_then(text, alloc, line, zone)?;
    }
    Ok(())
}

// What they have, and what is left once all is placed.
#[tactic(auto, unfolding(crate::specs::AmountLines::zone_then_line))]
fn add_zone_then(
    text: &mut Vec<u8>,
    alloc: Global,
    line: u32,
    zone: &ZoneThen,
) -> Result<(), AllocError>
    ensures { OnOk result (text.new.items ≡ text.old.items ++ zone_then_line line zone.now) }
{
    add_line(
        text,
        alloc,
        &[
            Member("cells", Value::Number(zone.of.cells)),
            Member("cells_left", Value::Number(zone.cells_left)),
            Member("free", Value::Sums(&zone.of.free)),
            Member("free_left", Value::Sums(&zone.free_left)),
            Member("line", Value::Number(u64::from(line))),
            Member("tag", Value::NameOrNull(&zone.of.tag)),
            Member("tell", Value::Text("amounts")),
            Member("total", Value::Sums(&zone.of.total)),
            Member("zone", Value::Name(&zone.of.zone)),
        ],
    )
}
