//! What placing a job changes.
ghost use Rattle.std.specs.Prelude.{◌≡◌, slice_set, slice_index_or, IfOk, OnOk, OnErr};
ghost use Rattle.auctioneer.specs.Asked.{AreStands};
ghost use Rattle.auctioneer.specs.Auction.{placement_on, stands_with};
ghost use Rattle.auctioneer.specs.Least.{best, IsBestAt};
ghost use Rattle.auctioneer.specs.Stands.{with_job};
ghost use Rattle.auctioneer.specs.declared.stand.Stand.{Stand as AStand};

use crate::placement::Placement;
use crate::stand::Stand;
use cell_records::Job;
use diego_names::OutOfMemory;

// Puts the job on the cell at that place, which is the best for it. After an error the cells are as
// before.
pub(crate) fn place_at(
    stands: &mut Vec<Stand>,
    job: &Job,
    at: usize,
) -> Result<Placement, OutOfMemory>
    requires sound { AreStands stands.old.items }
    requires best { IsBestAt stands.old.items job.now at }
    ensures placement { IfOk result
        (λ made. made ≡ placement_on job.now (best stands.old.items job.now)) }
    ensures stands { OnOk result
        (stands.new.items ≡ stands_with job.now (best stands.old.items job.now) stands.old.items) }
    ensures err { OnErr result (stands.new.items ≡ stands.old.items) }
    ensures sound { OnOk result (AreStands stands.new.items) }
    ensures one { OnOk result ((s : AStand) → stands.new.items ≡ slice_set stands.old.items at
        (with_job job.now (slice_index_or stands.old.items at s))) }
{
    let stand = &mut stands[at];
    stand.take(job)?;
    Ok(Placement::On {
        job: job.job,
        cell: stand.cell,
    })
}
