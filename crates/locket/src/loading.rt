//! Loading a locket: the journal, then its head, then its commands one after another.
ghost use Rattle.std.specs.Prelude.{◌≡◌, IfOk, IfErr};
ghost use Rattle.byte_ports.specs.Cause.{HasCause};
ghost use Rattle.disk_trait.specs.Past.{Image};
ghost use Rattle.disk_trait.specs.Shows.{Shows, KeepsContent, Secures};
ghost use Rattle.disk_trait.specs.Steps.{Goes};
ghost use Rattle.bbs_journal.specs.LoadFaults.{is_load_disk_fault};
ghost use Rattle.bbs_journal.specs.NotLoaded.{IsWhy, IsCutAt, is_disk_why};
ghost use Rattle.locket.specs.Opening.{IsLocket, RefusesLocket};
ghost use Rattle.locket.specs.View.{IsLocketFrom};

use crate::following::locks_of;
use crate::locket::Locket;
use bbs_journal::{LoadFault, NotLoaded};
use disk_trait::Disk;
use payload_log::PayloadLog;
use std::alloc::Global;

/// The most bytes that the head of a locket has. A longer one is none from its first byte on.
const LONGEST_HEAD: u32 = 28;

/// Why a disk holds no locket, by why no journal was loaded from it.
fn fault_of(why: NotLoaded) -> LoadFault
    requires { IsCutAt 28 why }
    ensures refuses { (c : Image) → IsWhy why c → RefusesLocket result c }
    ensures cause { is_load_disk_fault result ≡ is_disk_why why }
{
    match why {
        NotLoaded::Fault(fault) => fault,
        NotLoaded::LongHead(long) => LoadFault::Damaged {
            area: long.area,
            at: 23,
        },
    }
}

/// Loads the locket that a disk holds, and syncs both areas. It writes nothing.
pub fn load<D: Disk>(alloc: Global, disk: D) -> Result<Locket<D>, (D, LoadFault)>
    ensures found { IfOk result (λ l. (c : Image) → Shows (D.told l.disk) c → IsLocket l.base c) }
    ensures loaded { IfOk result (IsLocketFrom D.moment D.fault_count disk) }
    ensures refused { IfErr result (λ e. (c : Image) → Shows (D.told e.0) c → RefusesLocket e.1 c) }
    ensures ok { IfOk result (λ l. Goes (D.told disk) (D.told l.disk) Secures) }
    ensures err { IfErr result (λ e. Goes (D.told disk) (D.told e.0) KeepsContent) }
    ensures cause { IfErr result (λ e. HasCause (is_load_disk_fault e.1)
        (D.fault_count disk) (D.fault_count e.0)) }
{
    // A load that succeeds meets none.
    let faults = disk.faults();
    let loaded = match bbs_journal::load(alloc, disk, LONGEST_HEAD) {
        Ok(loaded) => loaded,
        Err((disk, why)) => return Err((disk, fault_of(why))),
    };
    let area = loaded.journal.area();
    match locks_of(
        loaded.version,
        area,
        &loaded.head,
        &loaded.frames,
        loaded.broken,
    ) {
        Ok(state) => Ok(Locket {
            log: PayloadLog::begin(alloc, loaded, faults),
            state,
        }),
        Err(fault) => Err((loaded.journal.into_disk(), fault)),
    }
}
