//! The table behind the desk. Word 0 counts the tickets drawn and word 1 the turns served, both
//! modulo 2^64. The one slot holds the value, and is empty only while the seat that has the turn
//! works on it.
use crate::history::History;
use crate::view::View;
use atomic_table::{Seat, Shared, Table, TableRule};
use std::alloc::Global;
use std::snapshot::Snapshot;

/// The rule of the desk. Its key is the value that the desk was started with.
pub struct ByTurns;

impl<V: History> TableRule<Option<V>, View<V::Item, V::Origin>, Snapshot<V>> for ByTurns {
    ghost use Rattle.ticket_desk.specs.Rule.{Legal, first_view};

    ghost holds = { λ key. Legal V.items V.origin V.by key.value };

    ghost first = { λ key. first_view (V.items key.value) (V.origin key.value) };
}

pub type Board<V> = Table<
    Option<V>,
    View<<V as History>::Item, <V as History>::Origin>,
    Snapshot<V>,
    ByTurns,
    Global,
>;

/// The board as the steps take it.
pub type Top<V> = Shared<
    Option<V>,
    View<<V as History>::Item, <V as History>::Origin>,
    Snapshot<V>,
    ByTurns,
>;

/// A seat at the board.
pub type Place<V> = Seat<Option<V>, View<<V as History>::Item, <V as History>::Origin>>;
