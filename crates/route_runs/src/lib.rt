//! A run whose phases are told by what they change of the routes.
#![tactic(auto)]

mod lines;
mod teller;

pub use teller::RouteTeller;
