//! What a board did since its load: its items, each with its mark and with what it told.
ghost use Rattle.std.specs.Prelude.{◌≡◌, ◌+◌, ◌≤◌, ◌<◌, [], ◌∷◌, ◌++◌, length, vec_len, vec_capacity, OnOk, IsOk};
ghost use Rattle.bbs_board.specs.History.{item_by, with_item};

use bbs_model::{Command, Events, Item};
use std::alloc::{AllocError, Global};
use std::marker::Model;

/// Three lists of one length, which only grow. Room for more is made by `reserve`, which alone takes
/// memory.
#[derive(Drop)]
pub struct History {
    pub(crate) log: Vec<Item>,
    // The disk's clock at the end of the call of each item.
    pub(crate) marks: Vec<u64>,
    // What each item told of the rows; a doubt tells nothing.
    pub(crate) told: Vec<Option<Events>>,
}

impl Model for History {
    ghost use Rattle.std.specs.Prelude.{◌-◌, min, vec_len, vec_capacity};
    ghost use Rattle.bbs_board.specs.History.{Entries};

    ghost Value = { Entries };

    ghost view = { λ h. record {
      log = h.log.items;
      marks = h.marks.items;
      told = h.told.items;
      room = min (min (vec_capacity h.log - vec_len h.log) (vec_capacity h.marks - vec_len h.marks))
          (vec_capacity h.told - vec_len h.told);
    } };
}

impl History {
    /// A history of nothing. It takes no memory.
    pub fn new(alloc: Global) -> History
        ensures log { result.log ≡ [] }
        ensures marks { result.marks ≡ [] }
        ensures told { result.told ≡ [] }
    {
        History {
            log: Vec::new(alloc),
            marks: Vec::new(alloc),
            told: Vec::new(alloc),
        }
    }

    /// The number of its items.
    pub fn place(&self) -> u64
        ensures { result ≡ length self.now.log }
    {
        self.log.len() as u64
    }

    /// Makes room for `n` more items. It fails only for want of memory.
    pub fn reserve(&mut self, n: usize) -> Result<(), AllocError>
        ensures stays { self.new ≡ record self.old { room = self.new.room } }
        ensures room { OnOk result (n ≤ self.new.room) }
        ensures succeeds { n ≤ self.old.room → IsOk result }
        ensures kept { self.old.room ≤ self.new.room }
    {
        self.log.reserve(n)?;
        self.marks.reserve(n)?;
        self.told.reserve(n)?;
        Ok(())
    }

    /// Adds the item of a command with its mark: of a transition, which told these events, or of a
    /// doubt, which tells nothing.
    pub fn add(&mut self, by: u32, command: &Command, mark: u64, told: &Option<Events>)
        requires { 0 < self.old.room }
        ensures { self.new ≡ with_item by command.entry.now mark told.entry.now self.old }
    {
        add_item(&mut self.log, by, command, told);
        self.marks.push_reserved(mark);
        add_told(&mut self.told, told);
    }
}

/// Adds the item of a command that told this.
fn add_item(log: &mut Vec<Item>, by: u32, command: &Command, told: &Option<Events>)
    requires { vec_len log.old < vec_capacity log.old }
    ensures items { log.new.items ≡ log.old.items ++ item_by by command.entry.now told.entry.now ∷ [] }
    ensures len { vec_len log.new ≡ vec_len log.old + 1 }
    ensures capacity { vec_capacity log.new ≡ vec_capacity log.old }
{
    match told {
        Some(_) => log.push_reserved(Item::Done(by, *command)),
        None => log.push_reserved(Item::Doubt(by, *command)),
    }
}

/// Adds what an item told.
fn add_told(list: &mut Vec<Option<Events>>, told: &Option<Events>)
    requires { vec_len list.old < vec_capacity list.old }
    ensures items { list.new.items ≡ list.old.items ++ told.entry.now ∷ [] }
    ensures len { vec_len list.new ≡ vec_len list.old + 1 }
    ensures capacity { vec_capacity list.new ≡ vec_capacity list.old }
{
    match told {
        Some(events) => list.push_reserved(Some(*events)),
        None => list.push_reserved(None),
    }
}
