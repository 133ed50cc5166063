//! A head that is longer than that of any board. Its first bytes alone are read, and they tell its defect.
ghost use Rattle.std.specs.Prelude.{◌≡◌, ◌⊎◌, ◌++◌, List, ℕ, false, length};
ghost use Rattle.disk_trait.specs.Past.{Image};
ghost use Rattle.bbs_journal.specs.LoadFaults.{is_load_disk_fault};
ghost use Rattle.bbs_journal.specs.NotLoaded.{IsWhy, IsCutAt, is_disk_why};
ghost use Rattle.head_codec.specs.Head.{longest_head};
ghost use Rattle.bbs_board.specs.Opening.{rows_in, Blames, Refuses};

use crate::head::rows_in;
use bbs_journal::{LoadFault, NotLoaded};
use disk_trait::Area;
use std::alloc::Global;

/// The defect of a head that begins with these bytes, which no head of a board is as long as.
fn fault_in(alloc: Global, version: u16, area: Area, begin: &[u8]) -> LoadFault
    requires read { (version ≡ 1) ⊎ (version ≡ 2) }
    requires long { length begin.now ≡ longest_head }
    ensures blames { (rest : List ℕ) → Blames result (rows_in version area (begin.entry.now ++ rest)) }
    ensures told { is_load_disk_fault result ≡ false }
{
    match rows_in(alloc, version, area, begin) {
        Ok(_) => unreachable!(),
        Err(fault) => fault,
    }
}

/// Why a disk holds no board, by why no journal was loaded from it.
pub fn fault_of(alloc: Global, why: NotLoaded) -> LoadFault
    requires { IsCutAt longest_head why }
    ensures refuses { (c : Image) → IsWhy why c → Refuses result c }
    ensures cause { is_load_disk_fault result ≡ is_disk_why why }
{
    match why {
        NotLoaded::Fault(fault) => fault,
        NotLoaded::LongHead(long) => fault_in(alloc, long.version, long.area, &long.begin),
    }
}
