use auctioneer::{Auction, Placement, Stand};
use cell_records::Job;
use diego_names::List;
use forecast_records::{Unplaced, Verdict};

/// Where all that waits goes once some cells are lost.
#[derive(Drop)]
pub struct Plan {
    /// All that waits, in the order of the auction.
    pub jobs: List<Job>,
    /// The open cells before the first job, by name, without their jobs.
    pub before: List<Stand>,
    /// One for each job, in their order.
    pub placements: List<Placement>,
    /// The jobs without room, in the order of the auction.
    pub left: List<Job>,
    /// Why each of them has none.
    pub without_room: List<Unplaced>,
    /// The open cells with all that was placed, by name.
    pub stands: Auction,
    /// How many jobs wait because of the loss.
    pub displaced: u64,
    /// Of the displaced jobs.
    pub verdict: Verdict,
}
