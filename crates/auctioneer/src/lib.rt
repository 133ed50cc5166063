//! The auction: jobs in order, each to the best cell that fits it.
#![tactic(auto)]

mod asked;
mod auction;
mod candidate;
mod counting;
mod field;
mod finding;
mod groups;
mod laws;
mod looks;
mod needs;
mod owning;
mod placement;
mod placing;
mod refused;
mod scan;
mod sharing;
mod spots;
mod stand;
mod standing;
mod tally;
mod turns;
mod watching;

pub use asked::{are_cells, are_jobs};
pub use auction::{Auction, run_auction};
pub use laws::{
    each_job_has_one_placement, placements_name_answers, placements_spread_over_zones,
    placements_take_room,
};
pub use placement::Placement;
pub use scan::scan_auction;
pub use stand::Stand;
pub use turns::in_order;
