//! What a planner finds out, as text and tables for people.
#![tactic(auto)]

mod answers;
mod drain;
mod dump;
mod each;
mod entries;
mod fit;
mod layout;
mod lists;
mod lose;
mod no_room;
mod runs;
mod show;
mod steps;
mod tags;
mod turns;
mod zones;

pub use answers::table;
