//! Rows of a board with room for more, which an index fills without memory.
ghost use Rattle.std.specs.Prelude.{◌≡◌, ◌≤◌, vec_capacity, OnOk, IsOk};
ghost use Rattle.bbs_index.specs.Room.{most_rows};
ghost use Rattle.bbs_model.specs.Tables.{no_rows};

use crate::Index;
use bbs_model::{DomainRow, Rows};
use cell_records::CellRow;
use diego_names::{List, OutOfMemory};
use lrp_records::{Actual, Desired};
use std::alloc::{AllocError, Global};
use std::marker::Model;
use task_records::Task;

/// The rows of a board, each table in the order of its keys, with room for more. Room is made once, before
/// calls that may not be refused memory, and the rows can then be read out of an index as often as needed.
#[derive(Drop)]
pub struct RowRoom {
    desired: Vec<Desired>,
    actual: Vec<Actual>,
    tasks: Vec<Task>,
    cells: Vec<CellRow>,
    domains: Vec<DomainRow>,
    next: u64,
    // The numbers of the rows of the table that was filled last. They are sorted, since a row is long.
    numbers: Vec<usize>,
}

impl Model for RowRoom {
    ghost use Rattle.std.specs.Prelude.{min, vec_capacity};
    ghost use Rattle.bbs_index.specs.Index.{least_room};
    ghost use Rattle.bbs_index.specs.Room.{Roomed};

    ghost Value = { Roomed };

    ghost view = { λ a. record {
      rows = record {
        desired = a.desired.items;
        actual = a.actual.items;
        tasks = a.tasks.items;
        cells = a.cells.items;
        domains = a.domains.items;
        next = a.next;
      };
      room = min (least_room (vec_capacity a.desired) (vec_capacity a.actual) (vec_capacity a.tasks)
          (vec_capacity a.cells) (vec_capacity a.domains)) (vec_capacity a.numbers);
    } };
}

// Makes room for a length of `n` in all.
pub(crate) fn make_room<X>(rows: &mut Vec<X>, n: usize) -> Result<(), AllocError>
    ensures items { rows.new.items ≡ rows.old.items }
    ensures room { OnOk result (n ≤ vec_capacity rows.new) }
    ensures succeeds { n ≤ vec_capacity rows.old → IsOk result }
    ensures kept { vec_capacity rows.old ≤ vec_capacity rows.new }
{
    rows.reserve(n.saturating_sub(rows.len()))
}

impl RowRoom {
    /// No rows, and no room. It takes no memory.
    pub fn new(alloc: Global) -> RowRoom
        ensures { result.rows ≡ no_rows }
    {
        RowRoom {
            desired: Vec::new(alloc),
            actual: Vec::new(alloc),
            tasks: Vec::new(alloc),
            cells: Vec::new(alloc),
            domains: Vec::new(alloc),
            next: 0,
            numbers: Vec::new(alloc),
        }
    }

    /// Makes room for `n` rows in each table, those that stand there among them. It fails only for want of
    /// memory.
    pub fn reserve(&mut self, n: usize) -> Result<(), OutOfMemory>
        ensures rows { self.new.rows ≡ self.old.rows }
        ensures room { OnOk result (n ≤ self.new.room) }
        ensures succeeds { n ≤ self.old.room → IsOk result }
        ensures kept { self.old.room ≤ self.new.room }
    {
        make_room(&mut self.desired, n)?;
        make_room(&mut self.actual, n)?;
        make_room(&mut self.tasks, n)?;
        make_room(&mut self.cells, n)?;
        make_room(&mut self.domains, n)?;
        make_room(&mut self.numbers, n)?;
        Ok(())
    }

    /// The rows, without a copy. The room is given away with them.
    pub fn into_rows(self) -> Rows
        ensures { result ≡ self.rows }
    {
        let RowRoom {
            desired,
            actual,
            tasks,
            cells,
            domains,
            next,
            ..
        } = self;
        Rows {
            desired: List::from(desired),
            actual: List::from(actual),
            tasks: List::from(tasks),
            cells: List::from(cells),
            domains: List::from(domains),
            next,
        }
    }

    /// The processes' rows.
    pub fn desired(&self) -> &[Desired]
        ensures { result.now ≡ self.now.rows.desired }
    {
        &self.desired
    }

    /// The instances' rows.
    pub fn actual(&self) -> &[Actual]
        ensures { result.now ≡ self.now.rows.actual }
    {
        &self.actual
    }

    /// The tasks' rows.
    pub fn tasks(&self) -> &[Task]
        ensures { result.now ≡ self.now.rows.tasks }
    {
        &self.tasks
    }

    /// The cells' rows.
    pub fn cells(&self) -> &[CellRow]
        ensures { result.now ≡ self.now.rows.cells }
    {
        &self.cells
    }

    /// The domains' rows.
    pub fn domains(&self) -> &[DomainRow]
        ensures { result.now ≡ self.now.rows.domains }
    {
        &self.domains
    }

    /// The number of transitions.
    pub fn next(&self) -> u64
        ensures { result ≡ self.now.rows.next }
    {
        self.next
    }
}

impl Index {
    /// How many rows the longest table has: so much room `fill` wants.
    pub fn longest(&self) -> usize
        ensures { result ≡ most_rows self.now.rows }
    {
        let instances = self.desired.len().max(self.actual.len());
        let others = self.tasks.len().max(self.cells.len());
        instances.max(others).max(self.domains.len())
    }

    /// Makes `rows` the rows of this index, each table in the order of its keys, as `rows` of the index gives
    /// them. There is room for them, so that this takes no memory.
    pub fn fill(&self, rows: &mut RowRoom)
        requires { most_rows self.now.rows ≤ rows.old.room }
        ensures rows { rows.new.rows ≡ self.now.rows }
        ensures room { rows.new.room ≡ rows.old.room }
    {
        self.desired.fill(&mut rows.numbers, &mut rows.desired);
        self.actual.fill(&mut rows.numbers, &mut rows.actual);
        self.tasks.fill(&mut rows.numbers, &mut rows.tasks);
        self.cells.fill(&mut rows.numbers, &mut rows.cells);
        self.domains.fill(&mut rows.numbers, &mut rows.domains);
        rows.next = self.next;
    }
}
