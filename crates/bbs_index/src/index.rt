//! The rows of a board under an index, each table on a shelf of its own, with the counts kept.
ghost use Rattle.std.specs.Prelude.{◌≡◌, IfOk};
ghost use Rattle.bbs_index.specs.Index.{places_on, AreRising};
ghost use Rattle.bbs_model.specs.Tables.{no_rows};
ghost use Rattle.bbs_model.specs.Valid.{IsValid};

use crate::Shelf;
use crate::placed::places_on;
use crate::wanted::instances_in;
use bbs_model::{DomainRow, Rows};
use cell_records::CellRow;
use diego_names::{Key, List, Name, OutOfMemory};
use lrp_records::{Actual, Desired, Presence};
use std::alloc::Global;
use std::marker::Model;
use task_records::Task;

/// A store of a board's rows. Every look-up, put and removal is a constant number of map
/// operations; only `of`, `rows`, `fill` and `keys_on` walk a table. `fill` takes no memory; the others of
/// these do, and `reserve`.
#[derive(Drop)]
pub struct Index {
    pub(crate) desired: Shelf<Desired>,
    pub(crate) actual: Shelf<Actual>,
    pub(crate) tasks: Shelf<Task>,
    pub(crate) cells: Shelf<CellRow>,
    pub(crate) domains: Shelf<DomainRow>,
    pub(crate) next: u64,
    // The instances that the desired rows want together.
    pub(crate) wanted: u32,
}

impl Model for Index {
    ghost use Rattle.std.specs.Prelude.{◌≡◌};
    ghost use Rattle.bbs_index.specs.Index.{Indexed, least_room, instances_in};

    ghost Value = { Indexed };

    ghost view = { λ a. record {
      rows = record {
        desired = a.desired.rows;
        actual = a.actual.rows;
        tasks = a.tasks.rows;
        cells = a.cells.rows;
        domains = a.domains.rows;
        next = a.next;
      };
      spare = least_room a.desired.spare a.actual.spare a.tasks.spare a.cells.spare a.domains.spare;
    } };

    ghost invariant = { λ a. a.wanted ≡ instances_in a.desired.rows };
}

impl Index {
    /// An index of no rows. It takes no memory.
    pub fn new(alloc: Global) -> Index
        ensures { result.rows ≡ no_rows }
    {
        Index {
            desired: Shelf::new(alloc),
            actual: Shelf::new(alloc),
            tasks: Shelf::new(alloc),
            cells: Shelf::new(alloc),
            domains: Shelf::new(alloc),
            next: 0,
            wanted: 0,
        }
    }

    /// An index of these rows. It fails only for want of memory.
    pub fn of(alloc: Global, rows: &Rows) -> Result<Index, OutOfMemory>
        requires { IsValid rows.now }
        ensures { IfOk result (λ index. index.rows ≡ rows.now) }
    {
        Ok(Index {
            desired: Shelf::of(alloc, rows.desired.items())?,
            actual: Shelf::of(alloc, rows.actual.items())?,
            tasks: Shelf::of(alloc, rows.tasks.items())?,
            cells: Shelf::of(alloc, rows.cells.items())?,
            domains: Shelf::of(alloc, rows.domains.items())?,
            next: rows.next,
            wanted: instances_in(rows.desired.items()),
        })
    }

    /// The rows, each table in the order of its keys. It fails only for want of memory.
    pub fn rows(&self, alloc: Global) -> Result<Rows, OutOfMemory>
        ensures rows { IfOk result (λ rows. rows ≡ self.now.rows) }
        ensures rising { IfOk result AreRising }
    {
        Ok(Rows {
            desired: List::from(self.desired.rows(alloc)?),
            actual: List::from(self.actual.rows(alloc)?),
            tasks: List::from(self.tasks.rows(alloc)?),
            cells: List::from(self.cells.rows(alloc)?),
            domains: List::from(self.domains.rows(alloc)?),
            next: self.next,
        })
    }

    /// Where the cell's containers have rows, CLAIMED or RUNNING, in the order of the rows. It
    /// fails only for want of memory.
    pub fn keys_on(&self, alloc: Global, cell: &Name) -> Result<List<(Key, Presence)>, OutOfMemory>
        ensures { IfOk result (λ places. places ≡ places_on self.now.rows cell.now) }
    {
        let rows = self.actual.rows(alloc)?;
        Ok(List::from(places_on(alloc, rows.as_slice(), cell)?))
    }

    /// The shelf of the processes' rows.
    pub fn desired_shelf(&self) -> &Shelf<Desired>
        ensures { result.now.rows ≡ self.now.rows.desired }
    {
        &self.desired
    }

    /// The shelf of the instances' rows.
    pub fn actual_shelf(&self) -> &Shelf<Actual>
        ensures { result.now.rows ≡ self.now.rows.actual }
    {
        &self.actual
    }

    /// The shelf of the tasks' rows.
    pub fn tasks_shelf(&self) -> &Shelf<Task>
        ensures { result.now.rows ≡ self.now.rows.tasks }
    {
        &self.tasks
    }

    /// The shelf of the cells' rows.
    pub fn cells_shelf(&self) -> &Shelf<CellRow>
        ensures { result.now.rows ≡ self.now.rows.cells }
    {
        &self.cells
    }

    /// The shelf of the domains' rows.
    pub fn domains_shelf(&self) -> &Shelf<DomainRow>
        ensures { result.now.rows ≡ self.now.rows.domains }
    {
        &self.domains
    }
}
