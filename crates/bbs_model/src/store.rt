//! What the board's step asks of the place where the rows are kept.
ghost use Rattle.std.specs.Prelude.{◌≡◌, ℕ, ◌+◌, ◌≤◌, ◌<◌, ◌^◌, OnOk, IsOk};
ghost use Rattle.bbs_model.specs.Step.{advanced};
ghost use Rattle.bbs_model.specs.Store.{HasRoom, TakesRoom};
ghost use Rattle.bbs_model.specs.Tables.{find_desired, find_actual, find_task, find_cell, find_domain, counts_of, wanted, put_desired, put_actual, put_task, put_cell, put_domain, without_desired, without_actual, without_task, without_cell, without_domain};
ghost use Rattle.bbs_model.specs.Valid.{IsValid};
ghost use Rattle.bbs_model.specs.declared.rows.Rows.{Rows};

use crate::{Counts, DomainRow};
use cell_records::CellRow;
use diego_names::{Key, Name, OutOfMemory};
use lrp_records::{Actual, Desired, Presence};
use task_records::Task;

/// The rows of the five tables, changed in place. Room for new rows is made by `reserve`, which alone
/// takes memory; clauses see it as a number, of rows with new keys that may be put.
pub trait RowStore {
    // The rows that the store has.
    ghost state: { Self → Rows };

    // How many rows with new keys may be put.
    ghost spare: { Self → ℕ };

    /// The row of a process.
    fn desired(&self, process: &Name) -> Option<Desired>
        ensures { result ≡ find_desired (state self.now) process.now };

    /// The row of an instance with this presence.
    fn actual(&self, key: &Key, presence: Presence) -> Option<Actual>
        ensures { result ≡ find_actual (state self.now) key.now presence };

    /// The row of a task.
    fn task(&self, name: &Name) -> Option<Task>
        ensures { result ≡ find_task (state self.now) name.now };

    /// The row of a cell.
    fn cell(&self, cell: &Name) -> Option<CellRow>
        ensures { result ≡ find_cell (state self.now) cell.now };

    /// The row of a domain.
    fn domain(&self, domain: &Name) -> Option<DomainRow>
        ensures { result ≡ find_domain (state self.now) domain.now };

    /// How many rows there are.
    fn counts(&self) -> Counts
        requires { IsValid (state self.now) }
        ensures { result ≡ counts_of (state self.now) };

    /// The number of transitions in the board's life.
    fn next(&self) -> u64
        ensures { result ≡ (state self.now).next };

    /// Counts a transition.
    fn advance(&mut self)
        requires { (state self.old).next + 1 < 2 ^ 64 }
        ensures state { state self.new ≡ advanced (state self.old) }
        ensures spare { spare self.old ≤ spare self.new };

    /// Puts a row in the place of its process.
    fn put_desired(&mut self, row: Desired)
        requires room { HasRoom (find_desired (state self.old) row.process) (spare self.old) }
        requires fits { wanted (put_desired (state self.old) row) < 2 ^ 32 }
        ensures state { state self.new ≡ put_desired (state self.old) row }
        ensures spare { TakesRoom (find_desired (state self.old) row.process)
            (spare self.old) (spare self.new) };

    /// Puts a row in its place.
    fn put_actual(&mut self, row: Actual)
        requires { HasRoom (find_actual (state self.old) row.key row.presence) (spare self.old) }
        ensures state { state self.new ≡ put_actual (state self.old) row }
        ensures spare { TakesRoom (find_actual (state self.old) row.key row.presence)
            (spare self.old) (spare self.new) };

    /// Puts a row in the place of its task.
    fn put_task(&mut self, row: Task)
        requires { HasRoom (find_task (state self.old) row.name) (spare self.old) }
        ensures state { state self.new ≡ put_task (state self.old) row }
        ensures spare { TakesRoom (find_task (state self.old) row.name)
            (spare self.old) (spare self.new) };

    /// Puts a row in the place of its cell.
    fn put_cell(&mut self, row: CellRow)
        requires { HasRoom (find_cell (state self.old) row.cell) (spare self.old) }
        ensures state { state self.new ≡ put_cell (state self.old) row }
        ensures spare { TakesRoom (find_cell (state self.old) row.cell)
            (spare self.old) (spare self.new) };

    /// Puts a row in the place of its domain.
    fn put_domain(&mut self, row: DomainRow)
        requires { HasRoom (find_domain (state self.old) row.domain) (spare self.old) }
        ensures state { state self.new ≡ put_domain (state self.old) row }
        ensures spare { TakesRoom (find_domain (state self.old) row.domain)
            (spare self.old) (spare self.new) };

    /// Takes the row of a process away, if there is one.
    fn remove_desired(&mut self, process: &Name)
        ensures state { state self.new ≡ without_desired (state self.old) process.now }
        ensures spare { spare self.old ≤ spare self.new };

    /// Takes the row of an instance with this presence away, if there is one.
    fn remove_actual(&mut self, key: &Key, presence: Presence)
        ensures state { state self.new ≡ without_actual (state self.old) key.now presence }
        ensures spare { spare self.old ≤ spare self.new };

    /// Takes the row of a task away, if there is one.
    fn remove_task(&mut self, name: &Name)
        ensures state { state self.new ≡ without_task (state self.old) name.now }
        ensures spare { spare self.old ≤ spare self.new };

    /// Takes the row of a cell away, if there is one.
    fn remove_cell(&mut self, cell: &Name)
        ensures state { state self.new ≡ without_cell (state self.old) cell.now }
        ensures spare { spare self.old ≤ spare self.new };

    /// Takes the row of a domain away, if there is one.
    fn remove_domain(&mut self, domain: &Name)
        ensures state { state self.new ≡ without_domain (state self.old) domain.now }
        ensures spare { spare self.old ≤ spare self.new };

    /// Makes room for `n` rows with new keys. It fails only for want of memory, and then the rows
    /// stay.
    fn reserve(&mut self, n: u32) -> Result<(), OutOfMemory>
        ensures state { state self.new ≡ state self.old }
        ensures room { OnOk result (n ≤ spare self.new) }
        ensures succeeds { n ≤ spare self.old → IsOk result }
        ensures kept { spare self.old ≤ spare self.new };
}
