// A sync of a file, and before the first one of the folders that have the files' names.
ghost use Rattle.std.specs.Prelude.{◌≡◌, ◌∷◌, true, false, is_ok, OnOk, OnErr};
ghost use Rattle.disk_trait.specs.Steps.{Synced};
ghost use Rattle.disk_trait.specs.declared.area.Area.{Area};
ghost use Rattle.file_calls.specs.Call.{flushed};
ghost use Rattle.file_calls.specs.Files.{held_by, has_its_name};
ghost use Rattle.file_calls.specs.Made.{AddsCalls, syncs, is_naming, was_synced, ends_refused};

use crate::{CallError, Calls};
use disk_trait::Area;

/// Syncs the file. `in_folder` says whether the names of both files are on the disk.
pub(crate) fn sync_whole<C: Calls>(
    calls: &mut C,
    in_folder: &mut bool,
    area: Area,
) -> Result<(), CallError>
    requires unsynced { was_synced area (C.history calls.old) ≡ false }
    requires named { in_folder.old ≡ true
        → (a : Area) → has_its_name a (C.history calls.old) ≡ true }
    ensures adds { AddsCalls (syncs area) (C.history calls.old) (C.history calls.new) }
    ensures here { Synced (is_ok result) (held_by C.first area (C.history calls.old))
        (held_by C.first area (C.history calls.new)) }
    ensures named { in_folder.new ≡ true
        → (a : Area) → has_its_name a (C.history calls.new) ≡ true }
    ensures refused { OnErr result (ends_refused (C.history calls.new) ≡ true) }
{
    name_once(calls, in_folder)?;
    sync_file(calls, area)
}

/// Asks for the sync of the file once, and answers as the system does.
fn sync_file<C: Calls>(calls: &mut C, area: Area) -> Result<(), CallError>
    requires { was_synced area (C.history calls.old) ≡ false }
    ensures { C.history calls.new ≡ flushed area (is_ok result) ∷ C.history calls.old }
{
    calls.sync_data(area)
}

fn name_once<C: Calls>(calls: &mut C, in_folder: &mut bool) -> Result<(), CallError>
    requires { in_folder.old ≡ true → (a : Area) → has_its_name a (C.history calls.old) ≡ true }
    ensures adds { AddsCalls is_naming (C.history calls.old) (C.history calls.new) }
    ensures ok { OnOk result ((a : Area) → has_its_name a (C.history calls.new) ≡ true) }
    ensures named { in_folder.new ≡ true
        → (a : Area) → has_its_name a (C.history calls.new) ≡ true }
    ensures refused { OnErr result (ends_refused (C.history calls.new) ≡ true) }
{
    if *in_folder {
        return Ok(());
    }
    sync_names(calls)?;
    *in_folder = true;
    Ok(())
}

fn sync_names<C: Calls>(calls: &mut C) -> Result<(), CallError>
    ensures adds { AddsCalls is_naming (C.history calls.old) (C.history calls.new) }
    ensures named { OnOk result ((a : Area) → has_its_name a (C.history calls.new) ≡ true) }
    ensures refused { OnErr result (ends_refused (C.history calls.new) ≡ true) }
{
    calls.sync_name(Area::A)?;
    calls.sync_name(Area::B)
}
