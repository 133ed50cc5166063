//! The board of one caller: its rows, which are what its journal recovers to, and the log of what it did.
#![tactic(auto)]

mod board;
mod checkpoint;
mod draft;
mod following;
mod head;
mod history;
mod kept_in;
mod laws;
mod loading;
mod long_head;
mod memory_loading;
mod orders;
mod putting;
mod reading;
mod redoing;
mod room;
mod storage;
mod tracked_index;

pub use bbs_journal::{LoadFault, PrepareFault, prepare};
pub use board::{Board, Closed};
pub use kept_in::KeptIn;
pub use laws::{
    a_board_is_not_refused, a_board_is_opened_in_one_way, a_refusal_is_one_refusal,
    a_stop_leaves_the_board_before_or_after, an_image_is_a_board_or_refused,
    tasks_complete_once_over_a_stop,
};
pub use loading::load;
pub use memory_loading::load_from_memory;
