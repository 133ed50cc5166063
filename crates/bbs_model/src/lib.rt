//! What a board is, what a command does to it, and what is answered.
#![tactic(auto)]

mod attempt;
mod attempts;
mod command;
mod counts;
mod domain_row;
mod event;
mod found;
mod heard;
mod hearing;
mod item;
mod keys;
mod limits;
mod port;
mod reply;
mod rowed;
mod rows;
mod store;
mod tables;
mod verdict;

pub use attempt::{Attempt, Edit};
pub use attempts::{attempt_at, judge};
pub use command::{Command, Op};
pub use counts::Counts;
pub use domain_row::DomainRow;
pub use event::{Change, Event, Events, Row};
pub use found::Found;
pub use heard::Heard;
pub use hearing::hear;
pub use item::Item;
pub use limits::{
    MOST_ACTUAL, MOST_CELLS, MOST_DOMAINS, MOST_INSTANCES, MOST_PROCESSES, MOST_TASKS,
    MOST_TRANSITIONS, MOST_WANTED,
};
pub use port::Port;
pub use reply::{CallFault, Reply};
pub use rowed::Rowed;
pub use rows::Rows;
pub use store::RowStore;
pub use tables::find_in;
pub use verdict::{BoardRefusal, Verdict};
