//! A journal of payloads in an area of a disk, safe against a stop at any moment.
#![tactic(auto)]

mod active;
mod area_writing;
mod body;
mod fault;
mod find;
mod frame;
mod frame_list;
mod head;
mod header;
mod journal;
mod laws;
mod load_fault;
mod loading;
mod look;
mod memory_loading;
mod not_loaded;
mod other_gate;
mod piece;
mod place;
mod preparing;
mod switching;
mod synced;
mod waiting;

pub use fault::DiskFault;
pub use journal::Journal;
pub use laws::{
    a_stop_is_opened_before_or_after, an_area_holds_one_list_of_payloads, an_image_is_opened_once,
    an_image_is_opened_or_has_no_head, an_image_is_recovered_once,
    of_two_open_areas_the_newer_is_opened, what_is_acknowledged_is_opened,
    what_is_opened_is_recovered, what_is_recovered_is_opened, what_is_recovered_takes_frames,
};
pub use load_fault::LoadFault;
pub use loading::{Loaded, load};
pub use memory_loading::load_from_memory;
pub use not_loaded::{LongHead, NotLoaded};
pub use other_gate::OtherGate;
pub use preparing::{PrepareFault, prepare, what_is_prepared_is_opened};
pub use waiting::Waiting;
