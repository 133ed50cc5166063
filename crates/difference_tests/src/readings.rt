//! Rows of an index, with a count of the readings.
ghost use Rattle.std.specs.Prelude.{◌≡◌, ◌+◌, refl};
ghost use Rattle.std.proofs.Common.{◌∙◌};

use bbs_index::Index;
use bbs_model::{DomainRow, RowStore};
use cell_records::CellRow;
use convergence::Steps;
use diego_names::{Key, Name};
use differences::CountedRows;
use lrp_records::{Actual, Desired, Presence};
use std::sync::ledger::Ledger;
use task_records::Task;

#[derive(Drop)]
pub(crate) struct Readings<'a, L: Ledger> {
    pub(crate) index: &'a Index,
    pub(crate) steps: &'a mut Steps<L>,
    pub(crate) count: u32,
}

impl<'a, L: Ledger> Readings<'a, L> {
    fn note(&mut self)
        ensures index { self.new.index ≡ self.old.index }
        ensures steps { self.new.steps.now ≡ self.old.steps.now + 1 }
        ensures same { self.new.steps.ghost_name ≡ self.old.steps.ghost_name }
    {
        self.steps.tick();
        self.count = self.count.wrapping_add(1);
    }
}

impl<'a, L: Ledger> CountedRows for Readings<'a, L> {
    ghost rows = { λ r. r.index.now.rows };

    ghost steps = { λ r. r.steps.now };

    ghost keeps = { λ p q. p.steps.ghost_name ≡ q.steps.ghost_name };

    ghost same = { λ p. refl };

    ghost goes_on = { λ p q r first second. first ∙ second };

    fn desired(&mut self, process: &Name) -> Option<Desired> {
        self.note();
        self.index.desired(process)
    }

    fn actual(&mut self, key: &Key, presence: Presence) -> Option<Actual> {
        self.note();
        self.index.actual(key, presence)
    }

    fn task(&mut self, name: &Name) -> Option<Task> {
        self.note();
        self.index.task(name)
    }

    fn cell(&mut self, cell: &Name) -> Option<CellRow> {
        self.note();
        self.index.cell(cell)
    }

    fn domain(&mut self, domain: &Name) -> Option<DomainRow> {
        self.note();
        self.index.domain(domain)
    }
}
