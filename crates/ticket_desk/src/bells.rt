//! Where threads sleep until it is their turn: each at a bell of its own, so that one is woken and no
//! other. Nothing is known of a bell; who wakes looks at the board.
ghost use Rattle.std.specs.Prelude.{ℕ, ◌<◌, ◌≤◌, ◌^◌, length, IfOk};

use atomic_table::{Play, Table, TableRule};
use std::alloc::{AllocError, Global};
use std::sync::Wait;

/// The rule of the bells, which keeps nothing.
pub struct Silent;

impl TableRule<u8, (), ()> for Silent {
    ghost holds = { λ _ _. Unit {0} };

    ghost first = { λ _. tt };
}

/// A look at a bell, or a ring of it.
pub struct Sound;

impl Play<u8, ()> for Sound {
    ghost then = { λ _ _ _ _. Unit {0} };
}

/// The bells of a desk.
pub struct Bells {
    table: Table<u8, (), (), Silent, Global>,
    ghost some: { 0 < table.shared.table_id.words },
}

impl Drop for Bells {
    fn drop(self) {
        let Self { table: _ } = self;
    }
}

impl Bells {
    // So many bells, of which there is one at least. Tickets that wait at one time are as many as the
    // seats at most and follow one another, so with a bell for each seat no two of them share one.
    pub(crate) fn new(alloc: Global, count: u32) -> Result<Bells, AllocError>
        requires { 0 < count }
    {
        let words = vec![in alloc; 0; count as usize]?;
        let (table, _seat) = Table::of_words(alloc, words.as_slice(), &())?;
        Ok(Bells { table })
    }

    // The bell of a ticket.
    fn bell_of(&self, ticket: u64) -> usize
        ensures { result < self.now.table.shared.table_id.words }
    {
        let count = self.table.word_count();
        (ticket % count as u64) as usize
    }

    // What the bell of the ticket shows, to be handed to `sleep`.
    pub(crate) fn shown(&self, ticket: u64) -> u32 {
        let shown = self.table.shared.peek(self.bell_of(ticket));
        (shown & LOW_HALF) as u32
    }

    // Sleeps until the bell of the ticket shows something else. It may also return for no reason.
    pub(crate) fn sleep<R: Wait>(&self, rt: &R, ticket: u64, shown: u32) {
        self.table.shared.park(rt, self.bell_of(ticket), shown);
    }

    // Rings the bell of the ticket, which then shows that ticket, and wakes who sleeps there.
    pub(crate) fn ring(&self, ticket: u64) {
        let bell = self.bell_of(ticket);
        let (_shown, _seat) = self.table.shared.swap_new_seat::<Sound>(bell, ticket);
        self.table.shared.wake_all(bell);
    }
}

const LOW_HALF: u64 = 0xffff_ffff;
