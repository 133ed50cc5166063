//! What a pass knows. No value of these types is made: they stand in clauses alone.
use std::collections::LinkedList;

/// What is known of a pass that was joined into another one.
pub struct Told<T> {
    pub number: u32,
    pub seen: LinkedList<T>,
    pub mine: LinkedList<T>,
}

/// A view of the desk. A view without a number is a note: it carries what was seen, and never has a
/// ticket.
pub struct View<T, O> {
    pub number: Option<u32>,
    /// The ticket that was drawn, until the turn is handed on.
    pub ticket: Option<u64>,
    /// Whether it is this view's turn. The value is out with it then.
    pub turn: bool,
    /// The value's history, as far as it was seen.
    pub seen: LinkedList<T>,
    /// The items that were made under this number.
    pub mine: LinkedList<T>,
    /// None for a note, and for a view that was joined into another.
    pub origin: Option<O>,
    /// How many numbers were given. Only the view with number 0 keeps this count.
    pub given: u32,
    /// The views that were joined into this one.
    pub joined: LinkedList<Told<T>>,
    /// What was seen by others who told it, until the next look.
    pub heard: LinkedList<LinkedList<T>>,
}
