//! The jobs of each cell, found in a logarithm of steps.
ghost use Rattle.std.specs.Prelude.{◌≡◌, ℕ, List, cond, None, IfOk, OnOk};
ghost use Rattle.std.specs.BTreeMap.{get};
ghost use Rattle.std.specs.Ordering.{is_eq};
ghost use Rattle.auctioneer.specs.declared.placement.Placement.{Placement as APlacement};
ghost use Rattle.bbs_model.specs.Valid.{IsValid};
ghost use Rattle.bbs_model.specs.declared.rows.Rows.{Rows as TheRows};
ghost use Rattle.converge_round.specs.CellJobs.{jobs_at, AreCellJobs, IsAdded, KeepsJob};
ghost use Rattle.converge_round.specs.Places.{jobs_on};
ghost use Rattle.diego_names.specs.Order.{name_order};

use crate::adding::add;
use crate::jobs::named_job;
use auctioneer::Placement;
use bbs_model::Rows;
use cell_records::Job;
use diego_names::{List, Name, OutOfMemory};
use std::alloc::Global;
use std::collections::BTreeMap;

/// The jobs that go to each cell, in the order of the auction.
#[derive(Drop)]
pub(crate) struct CellJobs {
    lists: BTreeMap<Name, List<Job>>,
}

impl CellJobs {
    /// Takes out what is kept for a cell.
    fn take(&mut self, alloc: Global, cell: &Name) -> List<Job>
        ensures jobs { result ≡ jobs_at self.old cell.now }
        ensures others { (other : List ℕ) → get name_order self.new.lists other
            ≡ cond (is_eq (name_order cell.now other)) None (get name_order self.old.lists other) }
    {
        match self.lists.remove(cell) {
            None => List::new(alloc),
            Some(jobs) => jobs,
        }
    }

    /// Keeps a job, if there is one, for a cell.
    fn add_to(&mut self, alloc: Global, cell: &Name, job: Option<Job>) -> Result<(), OutOfMemory>
        ensures { OnOk result (IsAdded cell.entry.now job self.old self.new) }
    {
        let mut jobs = self.take(alloc, cell);
        add(&mut jobs, job)?;
        self.lists.insert(*cell, jobs)?;
        Ok(())
    }

    /// Keeps the job of a placement for its cell.
    fn keep(&mut self, alloc: Global, rows: &Rows, placement: &Placement) -> Result<(), OutOfMemory>
        requires { IsValid rows.now }
        ensures { OnOk result (KeepsJob rows.entry.now placement.entry.now self.old self.new) }
    {
        match placement {
            Placement::NoRoom { .. } => Ok(()),
            Placement::On { job, cell } => self.add_to(alloc, cell, named_job(rows, job)),
        }
    }

    /// The jobs of each cell by these placements.
    pub(crate) fn of(
        alloc: Global,
        rows: &Rows,
        placements: &[Placement],
    ) -> Result<CellJobs, OutOfMemory>
        requires { IsValid rows.now }
        ensures { IfOk result (AreCellJobs rows.now placements.now) }
    {
        let mut kept = CellJobs {
            lists: BTreeMap::new(alloc),
        };
        for placement in placements {
            kept.keep(alloc, rows, placement)?;
        }
        Ok(kept)
    }

    /// The jobs that go to that cell.
    pub(crate) fn on(&self, cell: &Name) -> &[Job]
        ensures { (rows : TheRows) → (list : List APlacement) → AreCellJobs rows list self.now →
            result.now ≡ jobs_on rows list cell.now }
    {
        match self.lists.get(cell) {
            None => &[],
            Some(jobs) => jobs.items(),
        }
    }
}
