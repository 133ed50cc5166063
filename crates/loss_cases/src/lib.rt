//! What happens where cells are lost one after another or each alone, and where more instances would go.
#![tactic(auto)]

mod cases;
mod cells;
mod each;
mod fillings;
mod fits;
mod laws;
mod left;
mod losses;
mod more;
mod placements;
mod trials;
mod trying;
mod turns;
mod verdicts;

pub use each::lose_each;
pub use fits::fit;
pub use laws::{fits_fill, turns_survive};
pub use turns::lose_in_turn;
