//! A cell's rep: what stands on the cell, what it does to the board, and the wires between them.
#![tactic(auto)]

mod act;
mod acting;
mod begin;
mod begin_each;
mod call_end;
mod calling;
mod cell_act;
mod claims;
mod drain;
mod each;
mod ending;
mod joined;
mod laws;
mod memory_wire;
mod rep;
mod todo;
mod wire;

pub use acting::add_answer;
pub use call_end::{CallEnd, Called, RepRefusal};
pub use calling::called;
pub use cell_act::CellAct;
pub use laws::{
    a_start_stands_unless_its_refusal_is_heard, reps_answer, stops_and_starts_keep_the_cell,
};
pub use memory_wire::MemoryWire;
pub use rep::CellRep;
pub use wire::{CallKind, Delivery, Wire, WireCall};
