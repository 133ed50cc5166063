//! The orders that serve for jobs of any process: of all cells, and of those that jobs don't look at in vain.
ghost use Rattle.std.specs.Prelude.{◌≡◌, ◌<◌, length, IfOk};
ghost use Rattle.auctioneer.specs.Fields.{IsFieldOf, ServesEach};
ghost use Rattle.auctioneer.specs.Spots.{IsSpotOf};
ghost use Rattle.cell_records.specs.declared.job_name.JobName.{JobName as AJob};

use crate::field::Field;
use crate::spots::{Spot, Spots, load_of, spots_with_room};
use cell_records::Job;
use diego_names::OutOfMemory;

impl Field {
    // The spot of the cell at that place by its load now.
    fn loaded_spot(&self, at: usize) -> Spot
        requires field { IsFieldOf self.now }
        requires inside { at < length self.now.stands.items }
        ensures { (job : AJob) → IsSpotOf job self.now.groups.items self.now.stands.items at result }
    {
        let load = load_of(&self.stands[at]);
        let before = self.common.all[at];
        Spot { load, ..before }
    }

    // Lets the order of all cells know the load of the cell at that place.
    pub(crate) fn renew_common(&mut self, at: usize)
        requires field { IsFieldOf self.old }
        requires inside { at < length self.old.stands.items }
        ensures stands { self.new.stands.items ≡ self.old.stands.items }
        ensures field { IsFieldOf self.new }
    {
        let spot = self.loaded_spot(at);
        self.common.move_cell(at, spot);
    }

    // The same for the other order.
    pub(crate) fn renew_lean(&mut self, at: usize)
        requires field { IsFieldOf self.old }
        requires inside { at < length self.old.stands.items }
        ensures stands { self.new.stands.items ≡ self.old.stands.items }
        ensures field { IsFieldOf self.new }
    {
        let spot = self.loaded_spot(at);
        if let Some(lean) = &mut self.lean {
            lean.move_cell(at, spot);
        }
    }

    // The order of all cells, but for those that lack room for the job.
    fn lean_made(&self, job: &Job) -> Result<Spots, OutOfMemory>
        requires { IsFieldOf self.now }
        ensures { IfOk result (ServesEach self.now.groups.items self.now.stands.items) }
    {
        let all = Vec::from_slice(self.alloc, self.common.all.as_slice())?;
        spots_with_room(self.alloc, all, self.stands.as_slice(), job)
    }

    // Leaves the cells out that lack room for the job. Without memory the orders serve on as they are.
    pub(crate) fn give_lean(&mut self, job: &Job)
        requires { IsFieldOf self.old }
        ensures stands { self.new.stands.items ≡ self.old.stands.items }
        ensures field { IsFieldOf self.new }
    {
        match self.lean_made(job) {
            Ok(spots) => self.lean = Some(spots),
            Err(_) => {}
        }
    }
}
