//! Whether the head of the area that is read fits in it, and goes with its generation.
ghost use Rattle.std.specs.Prelude.{◌≡◌, ◌+◌, ◌≤◌, false, length, IfOk, IfErr};
ghost use Rattle.bbs_journal.specs.LoadFaults.{is_load_disk_fault};
ghost use Rattle.bbs_journal.specs.Opening.{size_in, is_ahead, size_of};

use crate::LoadFault;
use crate::active::{Active, GENERATION_AT};
use crate::header::{FRONT, u32_at, u64_at};

/// Whether the generation is above the number that begins the head, plus the version. A generation is
/// followed by another of its version only where it has frames, and each of them raises that number. One
/// of version 1 may be followed by one of version 2 without a frame, which happens once.
#[tactic(auto, unfolding(crate::specs::Opening::size_in, crate::specs::Opening::is_ahead))]
fn runs_ahead(version: u16, generation: u64, front: &[u8]) -> bool
    requires room { 23 ≤ length front.now }
    ensures { result ≡ is_ahead version generation front.now }
{
    if front.len() < FRONT || u32_at(&front[19..]) < 8 {
        return false;
    }
    let version = version as u64;
    generation > version && u64_at(&front[23..]) < generation - version
}

/// The length of the head. `front` are the first bytes of the area, of which there are `len`.
#[tactic(auto, unfolding(crate::specs::Opening::size_in, crate::specs::Opening::size_of))]
pub(crate) fn check_head(active: Active, front: &[u8], len: u64) -> Result<u32, LoadFault>
    ensures value { result ≡ size_of active front.now len }
    ensures fits { IfOk result (λ size. 23 + size ≤ len) }
    ensures told { IfErr result (λ e. is_load_disk_fault e ≡ false) }
{
    let area = active.area;
    if active.generation == 0 {
        return Err(LoadFault::Damaged {
            area,
            at: GENERATION_AT,
        });
    }
    if front.len() < 23 {
        return Err(LoadFault::Damaged { area, at: len });
    }
    if runs_ahead(active.version, active.generation, front) {
        return Err(LoadFault::Damaged {
            area,
            at: GENERATION_AT,
        });
    }
    let size = u32_at(&front[19..]);
    if len < 23 + size as u64 {
        return Err(LoadFault::Damaged { area, at: len });
    }
    Ok(size)
}
