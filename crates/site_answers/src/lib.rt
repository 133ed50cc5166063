//! What stands and waits, what a loss does, and what a dump tells that is modelled otherwise: answers as data.
#![tactic(auto)]

mod amounts;
mod cell_counts;
mod dark;
mod going_dark;
mod losing;
mod notes;
mod showing;
mod stands;
mod tags;
mod zone_cells;
mod zones;

pub use dark::dark_of_many;
pub use going_dark::{Processes, dark_with, processes_in};
pub use losing::{lose, lose_in};
pub use notes::notes_of;
pub use showing::show;
pub use stands::stays_after;
pub use zone_cells::cells_of_zone;
pub use zones::{zones_now, zones_then};

#[cfg(test)]
mod tests;
