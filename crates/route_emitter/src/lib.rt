//! The table of routes to the instances that run, kept along a board by its events alone.
#![tactic(auto)]

mod changing;
mod emitter;
mod entry;
mod exchanging;
mod instances;
mod kept;
mod laws;
mod plan;
mod sorted;
mod text;
mod way;

pub use emitter::Emitter;
pub use entry::{RouteChange, RouteEntry};
pub use laws::emitters_follow_boards;
pub use text::route_text;
