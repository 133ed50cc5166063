//! Members that are counts by name.
ghost use Rattle.std.specs.Prelude.{◌≡◌, OnOk, map};
ghost use Rattle.std.specs.List.{flat_map};
ghost use Rattle.line_writing.specs.Writing.{AddsTokens, AddsValue};
ghost use Rattle.headroom_print.specs.Members.{lack_tokens, member_tokens};
ghost use Rattle.headroom_print.specs.Values.{amounts_data, lacks_data, verdicts_data, zone_named, zones_data};

use crate::words::{LackCount, lacking};
use forecast_records::{EachLost, ZoneCount};
use json::Writer;
use line_writing::{begin, end, put_number};
use room_facts::Reasons;
use std::alloc::AllocError;

pub(crate) fn put_amounts(
    line: &mut Writer,
    containers: u64,
    disk: u64,
    memory: u64,
) -> Result<(), AllocError>
    ensures { OnOk result (AddsValue line.old line.new (amounts_data containers disk memory)) }
{
    begin(line)?;
    put_number(line, "containers", containers)?;
    put_number(line, "disk", disk)?;
    put_number(line, "memory", memory)?;
    end(line)
}

pub(crate) fn put_verdicts(line: &mut Writer, each: &EachLost) -> Result<(), AllocError>
    ensures { OnOk result (AddsValue line.old line.new (verdicts_data each.now)) }
{
    begin(line)?;
    put_number(line, "room", each.room)?;
    put_number(line, "short", each.short)?;
    put_number(line, "unplaced", each.unplaced)?;
    end(line)
}

pub(crate) fn put_zones(line: &mut Writer, zones: &[ZoneCount]) -> Result<(), AllocError>
    ensures { OnOk result (AddsValue line.old line.new (zones_data zones.now)) }
{
    begin(line)?;
    add_zones(line, zones)?;
    end(line)
}

fn add_zones(line: &mut Writer, zones: &[ZoneCount]) -> Result<(), AllocError>
    ensures { OnOk result (AddsTokens line.old line.new
        (flat_map member_tokens (map zone_named zones.now))) }
{
    for zone in zones {
        put_number(line, zone.zone.as_str(), zone.instances)?;
    }
    Ok(())
}

pub(crate) fn put_lacks(line: &mut Writer, reasons: &Reasons) -> Result<(), AllocError>
    ensures { OnOk result (AddsValue line.old line.new (lacks_data reasons.now)) }
{
    begin(line)?;
    add_lacks(line, &lacking(reasons))?;
    end(line)
}

fn add_lacks(line: &mut Writer, lacking: &[LackCount]) -> Result<(), AllocError>
    ensures { OnOk result (AddsTokens line.old line.new (flat_map lack_tokens lacking.now)) }
{
    for lack in lacking {
        add_lack(line, lack)?;
    }
    Ok(())
}

fn add_lack(line: &mut Writer, lack: &LackCount) -> Result<(), AllocError>
    ensures { OnOk result (AddsTokens line.old line.new (lack_tokens lack.now)) }
{
    if lack.1 == 0 {
        return Ok(());
    }
    put_number(line, lack.0, lack.1)
}
