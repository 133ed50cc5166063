//! The jobs that were placed, by their cells.
ghost use Rattle.std.specs.Prelude.{◌≡◌, ℕ, ◌++◌, ◌∷◌, [], cond, length, List, IfOk, OnOk};
ghost use Rattle.auctioneer.specs.Stands.{same_name};
ghost use Rattle.cell_drains.specs.Changes.{jobs_by, AreGroups};
ghost use Rattle.cell_drains.specs.Steps.{is_on};

use auctioneer::Placement;
use cell_records::Job;
use diego_names::{List, Name, OutOfMemory};
use std::alloc::Global;
use std::collections::HashMap;

// The jobs that were placed on each cell.
#[derive(Drop)]
pub(crate) struct Groups {
    jobs: HashMap<Name, List<Job>>,
}

fn push_job(jobs: &mut List<Job>, job: &Job) -> Result<(), OutOfMemory>
    ensures { OnOk result (jobs.new ≡ jobs.old ++ job.now ∷ []) }
{
    jobs.push(Job {
        job: job.job,
        memory: job.memory,
        disk: job.disk,
        tag: job.tag,
    })?;
    Ok(())
}

impl Groups {
    // Takes what is there of the cell.
    fn take(&mut self, alloc: Global, cell: &Name) -> List<Job>
        ensures taken { result ≡ jobs_by self.old cell.now }
        ensures rest { (other : List ℕ) → jobs_by self.new other
            ≡ cond (same_name cell.now other) [] (jobs_by self.old other) }
    {
        self.jobs.remove(cell).unwrap_or(List::new(alloc))
    }

    // Puts these there in place of those of the cell.
    fn put(&mut self, cell: &Name, jobs: List<Job>) -> Result<(), OutOfMemory>
        ensures { OnOk result ((other : List ℕ) → jobs_by self.new other
            ≡ cond (same_name cell.now other) jobs (jobs_by self.old other)) }
    {
        self.jobs.insert(*cell, jobs)?;
        Ok(())
    }

    // Adds a job behind those of the cell.
    fn add(&mut self, alloc: Global, cell: &Name, job: &Job) -> Result<(), OutOfMemory>
        ensures { OnOk result ((other : List ℕ) → jobs_by self.new other
            ≡ jobs_by self.old other ++ cond (same_name cell.now other) (job.now ∷ []) []) }
    {
        let mut jobs = self.take(alloc, cell);
        push_job(&mut jobs, job)?;
        self.put(cell, jobs)?;
        Ok(())
    }

    // Adds a job behind those of its cell, if it was placed on one.
    fn add_placed(
        &mut self,
        alloc: Global,
        job: &Job,
        placement: &Placement,
    ) -> Result<(), OutOfMemory>
        ensures { OnOk result ((other : List ℕ) → jobs_by self.new other
            ≡ jobs_by self.old other ++ cond (is_on other placement.now) (job.now ∷ []) []) }
    {
        match placement {
            Placement::On { cell, .. } => {
                self.add(alloc, cell, job)?;
                Ok(())
            }
            Placement::NoRoom { .. } => Ok(()),
        }
    }

    // The jobs that were placed on each cell, where these placements are those of these jobs.
    pub(crate) fn of(
        alloc: Global,
        jobs: &[Job],
        placements: &[Placement],
    ) -> Result<Groups, OutOfMemory>
        requires { length placements.now ≡ length jobs.now }
        ensures { IfOk result (AreGroups jobs.now placements.now) }
    {
        let mut groups = Groups {
            jobs: HashMap::new(alloc),
        };
        for at in 0..jobs.len() {
            groups.add_placed(alloc, &jobs[at], &placements[at])?;
        }
        Ok(groups)
    }

    // A copy of the jobs on the cell.
    pub(crate) fn on(&self, alloc: Global, cell: &Name) -> Result<Vec<Job>, OutOfMemory>
        ensures { IfOk result (λ jobs. jobs.items ≡ jobs_by self.now cell.now) }
    {
        match self.jobs.get(cell) {
            Some(jobs) => Ok(Vec::from_slice(alloc, jobs.items())?),
            None => Ok(Vec::new(alloc)),
        }
    }
}
