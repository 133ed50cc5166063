//! The steps of a turn at the two words: a ticket is drawn, its turn is awaited, and the turn is
//! handed on.
ghost use Rattle.std.specs.Prelude.{◌≡◌, ℕ, [], ◌∷◌, false, true, Some, None};
ghost use Rattle.ticket_desk.specs.Steps.{TakesTurn, Fits, after_turn};
ghost use Rattle.ticket_desk.specs.Turns.{Adds};
ghost use Rattle.ticket_desk.specs.Tables.{IsDesk, IsWaiting, IsDone};

use crate::bells::Bells;
use crate::history::History;
use crate::plays::{Draw, HandOn, Look};
use crate::rule::{Place, Top};
use std::sync::Wait;
use std::thread;

const DRAWN: usize = 0;

const SERVED: usize = 1;

/// So often a thread whose turn is near gives its processor away before it sleeps.
const PATIENCE: u32 = 16;

/// A turn is near if no more than so many come first. Whoever waits for a later one sleeps at once: the turns
/// before it take longer than its looks, and each look takes a processor from them.
const NEAR: u64 = 2;

/// Draws a ticket.
pub(crate) fn draw<V: History>(top: &Top<V>, place: &mut Place<V>, number: u32) -> u64
    requires board { IsDesk top.now.table_id place.old.table_id }
    requires free { (place.old.me.0.ticket ≡ None) × (place.old.me.0.number ≡ Some number)
        × (place.old.me.0.turn ≡ false) }
    ensures board { place.new.table_id ≡ place.old.table_id }
    ensures drawn { let m = place.old.me in
        place.new.me ≡ (record m.0 { ticket = Some result }, m.1) }
{
    let _ = number;
    top.fetch_add::<Draw>(place, DRAWN, 1)
}

/// Waits until the ticket is served. The value is out with the seat then. What the ticket's bell shows is
/// read before the look, so that a ring behind the look ends the sleep.
pub(crate) fn await_turn<V: History, R: Wait>(
    rt: &R,
    top: &Top<V>,
    bells: &Bells,
    place: &mut Place<V>,
    number: u32,
    ticket: u64,
)
    requires board { IsDesk top.now.table_id place.old.table_id }
    requires waits { IsWaiting number ticket place.old.me }
    ensures board { place.new.table_id ≡ place.old.table_id }
    ensures turn { TakesTurn V.items V.origin place.old.me place.new.me }
{
    let _ = number;
    let mut looks = 0;
    for _ in rt.forever() {
        let shown = bells.shown(ticket);
        let served = top.load::<Look>(place, SERVED);
        if served == ticket {
            return;
        }
        if looks < PATIENCE && ticket.wrapping_sub(served) <= NEAR {
            looks += 1;
            thread::yield_now();
        } else {
            bells.sleep(rt, ticket, shown);
        }
    }
    unreachable!()
}

/// Serves the next ticket, and wakes whoever has it. The value is home, and its history may be longer by
/// one item of this number.
pub(crate) fn hand_on<V: History>(
    top: &Top<V>,
    bells: &Bells,
    place: &mut Place<V>,
    number: u32,
    ticket: u64,
)
    requires board { IsDesk top.now.table_id place.old.table_id }
    requires done { IsDone V.items V.origin V.by number ticket place.old.me }
    ensures board { place.new.table_id ≡ place.old.table_id }
    ensures home { (x : V) × (place.old.me.1 ≡ (0, Some x) ∷ [])
        × (place.new.me ≡ (after_turn place.old.me.0 (V.items x), [])) }
{
    let _ = number;
    let next = ticket.wrapping_add(1);
    top.store::<HandOn>(place, SERVED, next);
    if top.peek(DRAWN) != next {
        bells.ring(next);
    }
}
