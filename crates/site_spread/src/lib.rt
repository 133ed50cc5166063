//! How processes are spread over zones and cells, with what else is told of a site by keys that are counted.
#![tactic(auto)]

mod counts;
mod group;
mod keys;
mod listing;
mod spots;
mod spread;
mod tallies;
mod uneven;

pub use counts::{count_in, counts_of};
pub use group::{Group, group_of, is_in};
pub use keys::keys_in_order;
pub use listing::{processes, zone_names};
pub use spread::{uneven_in, uneven_now};
pub use tallies::{Together, together_in};
pub use uneven::by_spread;
