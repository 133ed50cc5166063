//! An empty board in memory.
ghost use Rattle.std.specs.Prelude.{IfOk};
ghost use Rattle.bbs_board.specs.Opening.{IsBoard};
ghost use Rattle.bbs_model.specs.Tables.{no_rows};
ghost use Rattle.disk_trait.specs.Memory.{memory_past};
ghost use Rattle.disk_trait.specs.Past.{content};

use bbs_journal::{prepare, what_is_prepared_is_opened};
use diego_names::OutOfMemory;
use disk_trait::MemoryDisk;
use std::alloc::Global;

/// A disk in memory that holds an empty board.
pub(crate) fn prepared(alloc: Global) -> Result<MemoryDisk, OutOfMemory>
    ensures { IfOk result (λ disk. IsBoard no_rows (content (memory_past disk))) }
{
    what_is_prepared_is_opened();
    let mut disk = MemoryDisk::new(alloc, Vec::new(alloc), Vec::new(alloc), Vec::new(alloc));
    match prepare(&mut disk) {
        Ok(()) => Ok(disk),
        Err(_) => Err(OutOfMemory),
    }
}
