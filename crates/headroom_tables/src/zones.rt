//! What the cells of each zone and tag have.
ghost use Rattle.std.specs.Prelude.{◌≡◌, [], ◌∷◌, ◌++◌, OnOk};
ghost use Rattle.text_table.specs.Texts.{texts_of};
ghost use Rattle.headroom_tables.specs.ZoneTables.{zone_now_row, zone_now_table, zone_then_row, zone_then_table};

use crate::entries::Entry;
use crate::layout::{Heading, add_row, add_table};
use forecast_records::{ZoneNow, ZoneThen};
use std::alloc::{AllocError, Global};
use text_table::Side;

#[tactic(auto, unfolding(crate::specs::ZoneTables::zone_now_row))]
fn add_zone_now(
    rows: &mut Vec<Vec<String>>,
    alloc: Global,
    zone: &ZoneNow,
) -> Result<(), AllocError>
    ensures { OnOk result
        (texts_of rows.new.items ≡ texts_of rows.old.items ++ zone_now_row zone.now ∷ []) }
{
    add_row(
        rows,
        alloc,
        &[
            Entry::Name(&zone.of.zone),
            Entry::Tag(&zone.of.tag),
            Entry::Number(zone.of.cells),
            Entry::Amount(zone.of.total.memory),
            Entry::Amount(zone.of.free.memory),
            Entry::Amount(u64::from(zone.most_free.memory)),
            Entry::Amount(zone.of.free.disk),
            Entry::Number(zone.of.free.containers),
            Entry::Number(zone.instances),
        ],
    )
}

/// What there is now.
pub(crate) fn add_zones_now(
    text: &mut Vec<u8>,
    alloc: Global,
    zones: &[ZoneNow],
) -> Result<(), AllocError>
    ensures { OnOk result (text.new.items ≡ text.old.items ++ zone_now_table zones.now) }
{
    let mut rows = Vec::new(alloc);
    for zone in zones {
        add_zone_now(&mut rows, alloc, zone)?;
    }
    add_table(
        text,
        alloc,
        &[
            Heading(Side::Left, "ZONE"),
            Heading(Side::Left, "TAG"),
            Heading(Side::Right, "CELLS"),
            Heading(Side::Right, "MEMORY"),
            Heading(Side::Right, "FREE"),
            Heading(Side::Right, "ON ONE CELL"),
            Heading(Side::Right, "DISK FREE"),
            Heading(Side::Right, "CONTAINERS"),
            Heading(Side::Right, "INSTANCES"),
        ],
        rows,
    )
}

#[tactic(auto, unfolding(crate::specs::ZoneTables::zone_then_row))]
fn add_zone_then(
    rows: &mut Vec<Vec<String>>,
    alloc: Global,
    zone: &ZoneThen,
) -> Result<(), AllocError>
    ensures { OnOk result
        (texts_of rows.new.items ≡ texts_of rows.old.items ++ zone_then_row zone.now ∷ []) }
{
    add_row(
        rows,
        alloc,
        &[
            Entry::Name(&zone.of.zone),
            Entry::Tag(&zone.of.tag),
            Entry::Number(zone.of.cells),
            Entry::Number(zone.cells_left),
            Entry::Amount(zone.of.total.memory),
            Entry::Amount(zone.of.free.memory),
            Entry::Amount(zone.free_left.memory),
            Entry::Amount(zone.of.free.disk),
            Entry::Amount(zone.free_left.disk),
            Entry::Number(zone.of.free.containers),
            Entry::Number(zone.free_left.containers),
        ],
    )
}

/// What there is now, and once all that waits is placed.
pub(crate) fn add_zones_then(
    text: &mut Vec<u8>,
    alloc: Global,
    zones: &[ZoneThen],
) -> Result<(), AllocError>
    ensures { OnOk result (text.new.items ≡ text.old.items ++ zone_then_table zones.now) }
{
    let mut rows = Vec::new(alloc);
    for zone in zones {
        add_zone_then(&mut rows, alloc, zone)?;
    }
    add_table(
        text,
        alloc,
        &[
            Heading(Side::Left, "ZONE"),
            Heading(Side::Left, "TAG"),
            Heading(Side::Right, "CELLS"),
            Heading(Side::Right, "LEFT"),
            Heading(Side::Right, "MEMORY"),
            Heading(Side::Right, "FREE"),
            Heading(Side::Right, "THEN"),
            Heading(Side::Right, "DISK FREE"),
            Heading(Side::Right, "THEN"),
            Heading(Side::Right, "CONTAINERS"),
            Heading(Side::Right, "THEN"),
        ],
        rows,
    )
}
