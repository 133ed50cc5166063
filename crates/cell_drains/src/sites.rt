//! A site with other cells.
ghost use Rattle.std.specs.Prelude.{◌≡◌, IfOk};

use cell_records::{Answer, Job};
use diego_names::{List, OutOfMemory};
use std::alloc::Global;
use what_if::Site;

// The site with these cells and these tasks that wait.
pub(crate) fn site_with(
    alloc: Global,
    site: &Site,
    cells: Vec<Answer>,
    pending: Vec<Job>,
) -> Result<Site, OutOfMemory>
    ensures { IfOk result (λ made.
        made ≡ record site.now { cells = cells.items; pending = pending.items }) }
{
    let silent = Vec::from_slice(alloc, site.silent.items())?;
    let silent_stays = Vec::from_slice(alloc, site.silent_stays.items())?;
    let wanted = Vec::from_slice(alloc, site.wanted.items())?;
    Ok(Site {
        cells: List::from(cells),
        silent: List::from(silent),
        silent_stays: List::from(silent_stays),
        wanted: List::from(wanted),
        pending: List::from(pending),
        told_desired: site.told_desired,
    })
}
