ghost use Rattle.std.specs.Prelude.{◌≡◌};
ghost use Rattle.auction_scoring.specs.Fits.{fits};

use crate::cell_view::CellView;
use cell_records::Job;

/// Whether the cell may take the job: by its tag, and by what it has free.
pub fn fits(job: &Job, view: &CellView) -> bool
    ensures { result ≡ fits job.now view.now }
{
    job.tag == view.tag
        && job.memory <= view.free.memory
        && job.disk <= view.free.disk
        && 0 < view.free.containers
}
