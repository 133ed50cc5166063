//! The orders of a board's tables, which one checkpoint leaves to the next.
ghost use Rattle.std.specs.Prelude.{◌≤◌, OnOk, IsOk};
ghost use Rattle.bbs_board.specs.Room.{numbers_in};

use bbs_index::Order;
use diego_names::OutOfMemory;
use std::alloc::Global;

/// For each table the order in which its rows were last written.
#[derive(Drop)]
pub struct Orders {
    pub(crate) desired: Order,
    pub(crate) actual: Order,
    pub(crate) tasks: Order,
    pub(crate) cells: Order,
    pub(crate) domains: Order,
}

impl Orders {
    /// Orders of no rows. They take no memory.
    pub fn new(alloc: Global) -> Orders {
        Orders {
            desired: Order::new(alloc),
            actual: Order::new(alloc),
            tasks: Order::new(alloc),
            cells: Order::new(alloc),
            domains: Order::new(alloc),
        }
    }

    /// Makes room for so many rows in each table. It fails only for want of memory.
    pub fn reserve(&mut self, rows: usize) -> Result<(), OutOfMemory>
        ensures room { OnOk result (rows ≤ numbers_in self.new) }
        ensures succeeds { rows ≤ numbers_in self.old → IsOk result }
        ensures kept { numbers_in self.old ≤ numbers_in self.new }
    {
        self.desired.reserve(rows)?;
        self.actual.reserve(rows)?;
        self.tasks.reserve(rows)?;
        self.cells.reserve(rows)?;
        self.domains.reserve(rows)?;
        Ok(())
    }
}
