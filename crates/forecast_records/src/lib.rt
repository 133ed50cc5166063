//! What a planner finds out about a foundation: the answers to its questions, as data.
#![tactic(auto)]

mod cases;
mod drains;
mod finding;
mod fits;
mod losses;
mod notes;
mod spread;
mod stock;
mod unplaced;
mod verdict;

pub use cases::{Case, EachLost, Turn, TurnWord, TurnsTaken};
pub use drains::{Drained, Step};
pub use finding::{Finding, Found};
pub use fits::{Filled, Fitted};
pub use losses::{Lost, Move};
pub use notes::Notes;
pub use spread::{InOneZone, OnOneCell, Uneven, ZoneCount};
pub use stock::{Shown, TagRoom, ZoneNow, ZoneThen, ZoneTotals};
pub use unplaced::Unplaced;
pub use verdict::Verdict;
