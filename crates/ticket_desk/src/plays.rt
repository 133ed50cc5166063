//! The kinds of atomic step, and what each tells the seat that makes it.
ghost use Rattle.ticket_desk.specs.Steps.{Draws, Looks, HandsOn, Catches};
ghost use Rattle.ticket_desk.specs.Steps.{note_of, heard_from};
ghost use Rattle.ticket_desk.specs.Steps.{next_given, newly_given, joined_with, spent_view};

use crate::history::History;
use crate::view::View;
use atomic_table::{Join, Play, Split};

/// Draws a ticket.
pub struct Draw;

impl<V: History> Play<Option<V>, View<V::Item, V::Origin>> for Draw {
    ghost then = { Draws };
}

/// Looks whether a ticket is served, and takes the turn where it is.
pub struct Look;

impl<V: History> Play<Option<V>, View<V::Item, V::Origin>> for Look {
    ghost then = { Looks V.items V.origin };
}

/// Hands the turn on.
pub struct HandOn;

impl<V: History> Play<Option<V>, View<V::Item, V::Origin>> for HandOn {
    ghost then = { HandsOn V.items };
}

/// Looks at how long the history is by now, after something was heard.
pub struct Catch;

impl<V: History> Play<Option<V>, View<V::Item, V::Origin>> for Catch {
    ghost then = { Catches };
}

/// Splits off a note, which has seen what its view has seen.
pub struct Note;

impl<T, O> Split<View<T, O>> for Note {
    ghost left = { λ v. v };

    ghost right = { note_of };
}

/// Splits a view off that of number 0, and gives it the next number.
pub struct Give;

impl<T, O> Split<View<T, O>> for Give {
    ghost left = { next_given };

    ghost right = { newly_given };
}

/// Takes in a note.
pub struct Hear;

impl<T, O> Join<View<T, O>> for Hear {
    ghost both = { heard_from };

    ghost spent = { spent_view };
}

/// Takes in a pass, as the desk is closed.
pub struct Gather;

impl<T, O> Join<View<T, O>> for Gather {
    ghost both = { joined_with };

    ghost spent = { spent_view };
}
