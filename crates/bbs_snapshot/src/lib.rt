//! A checkpoint: a journal goes on in the other area of its disk, with a head in place of its frames.
#![tactic(auto)]

mod switching;

pub use switching::switch;
