//! A list of numbers, each with the pass that added it.
use crate::history::History;
use std::alloc::{AllocError, Global};

#[derive(Clone, Copy, Debug, PartialEq)]
pub struct Entry {
    pub by: u32,
    pub value: u32,
}

#[derive(Drop)]
pub struct Numbers {
    pub entries: Vec<Entry>,
}

impl History for Numbers {
    type Item = Entry;

    type Origin = ();

    ghost items = { λ s. s.entries.items };

    ghost origin = { λ s. tt };

    ghost by = { λ e. e.by };
}

impl Numbers {
    ghost use Rattle.std.specs.Prelude.{[], ◌≡◌, IfOk, slice_get};
    ghost use Rattle.ticket_desk.specs.Turns.{Adds};

    pub fn new(alloc: Global, room: usize) -> Result<Numbers, AllocError>
        ensures { IfOk result (λ s. s.entries.items ≡ []) }
    {
        let entries = Vec::with_capacity(alloc, room)?;
        Ok(Numbers { entries })
    }

    /// Adds a number, and says at which place. It does not where there is no memory.
    pub fn add(&mut self, by: u32, value: u32) -> Option<usize>
        ensures { Adds (λ e. e.by) by self.old.entries.items self.new.entries.items }
    {
        let place = self.entries.len();
        match self.entries.push(Entry { by, value }) {
            Ok(()) => Some(place),
            Err(_) => None,
        }
    }

    pub fn first(&mut self) -> Option<Entry>
        ensures same { self.new ≡ self.old }
        ensures first { result ≡ slice_get self.old.entries.items 0 }
    {
        self.entries.first().copied()
    }
}
