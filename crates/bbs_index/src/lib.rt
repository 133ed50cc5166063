//! The rows of a board under an index: each table a shelf, a map from keys to rows that is read as
//! the table.
#![tactic(auto)]

mod entries;
mod index;
mod order;
mod placed;
mod redoing;
mod row_room;
mod row_store;
mod shelf;
mod sorted;
mod wanted;

pub use index::Index;
pub use order::Order;
pub use row_room::RowRoom;
pub use shelf::Shelf;
