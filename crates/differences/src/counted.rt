//! Rows whose readings are counted.
ghost use Rattle.std.specs.Prelude.{◌≡◌, ℕ, ◌+◌, refl};
ghost use Rattle.std.proofs.Common.{◌∙◌};
ghost use Rattle.bbs_model.specs.Tables.{find_desired, find_actual, find_task, find_cell, find_domain};
ghost use Rattle.bbs_model.specs.declared.rows.Rows.{Rows};

use bbs_model::{DomainRow, RowStore};
use cell_records::CellRow;
use convergence::Steps;
use diego_names::{Key, Name};
use lrp_records::{Actual, Desired, Presence};
use std::sync::ledger::Ledger;
use task_records::Task;

/// Rows that can only be looked up, and each reading is one step. No call takes memory.
pub trait CountedRows {
    // The rows that are read.
    ghost rows: { Self → Rows };

    // How many steps were taken.
    ghost steps: { Self → ℕ };

    // They are the same rows and the same counter, of which only the number has changed.
    ghost keeps: { Self → Self → Type 0 };

    /// The row of a process.
    fn desired(&mut self, process: &Name) -> Option<Desired>
        ensures row { result ≡ find_desired (rows self.old) process.now }
        ensures keeps { keeps self.old self.new }
        ensures same { rows self.new ≡ rows self.old }
        ensures step { steps self.new ≡ steps self.old + 1 };

    /// The row of an instance with this presence.
    fn actual(&mut self, key: &Key, presence: Presence) -> Option<Actual>
        ensures row { result ≡ find_actual (rows self.old) key.now presence }
        ensures keeps { keeps self.old self.new }
        ensures same { rows self.new ≡ rows self.old }
        ensures step { steps self.new ≡ steps self.old + 1 };

    /// The row of a task.
    fn task(&mut self, name: &Name) -> Option<Task>
        ensures row { result ≡ find_task (rows self.old) name.now }
        ensures keeps { keeps self.old self.new }
        ensures same { rows self.new ≡ rows self.old }
        ensures step { steps self.new ≡ steps self.old + 1 };

    /// The row of a cell.
    fn cell(&mut self, cell: &Name) -> Option<CellRow>
        ensures row { result ≡ find_cell (rows self.old) cell.now }
        ensures keeps { keeps self.old self.new }
        ensures same { rows self.new ≡ rows self.old }
        ensures step { steps self.new ≡ steps self.old + 1 };

    /// The row of a domain.
    fn domain(&mut self, domain: &Name) -> Option<DomainRow>
        ensures row { result ≡ find_domain (rows self.old) domain.now }
        ensures keeps { keeps self.old self.new }
        ensures same { rows self.new ≡ rows self.old }
        ensures step { steps self.new ≡ steps self.old + 1 };

    // It is what it is.
    ghost same: { (p : Self) → keeps p p };

    // What keeps what was kept keeps the first.
    ghost goes_on: { (p q r : Self) → keeps p q → keeps q r → keeps p r };
}

/// The rows of a store, with a counter of the readings.
#[derive(Drop)]
pub struct Counted<'a, T: RowStore, L: Ledger> {
    pub store: &'a T,
    pub steps: &'a mut Steps<L>,
}

impl<'a, T: RowStore, L: Ledger> CountedRows for Counted<'a, T, L> {
    ghost rows = { λ c. T.state c.store.now };

    ghost steps = { λ c. c.steps.now };

    ghost keeps = { λ p q. p.steps.ghost_name ≡ q.steps.ghost_name };

    ghost same = { λ p. refl };

    ghost goes_on = { λ p q r first second. first ∙ second };

    fn desired(&mut self, process: &Name) -> Option<Desired> {
        self.steps.tick();
        self.store.desired(process)
    }

    fn actual(&mut self, key: &Key, presence: Presence) -> Option<Actual> {
        self.steps.tick();
        self.store.actual(key, presence)
    }

    fn task(&mut self, name: &Name) -> Option<Task> {
        self.steps.tick();
        self.store.task(name)
    }

    fn cell(&mut self, cell: &Name) -> Option<CellRow> {
        self.steps.tick();
        self.store.cell(cell)
    }

    fn domain(&mut self, domain: &Name) -> Option<DomainRow> {
        self.steps.tick();
        self.store.domain(domain)
    }
}
