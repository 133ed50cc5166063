//! The rows of a board behind hash maps. What owns an index or a shelf has one end: what looks at the value borrows it,
//! and has the ends.
mod boards;
mod index;
mod orders;
mod shelf;
