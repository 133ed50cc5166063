//! A process whose jobs look at many cells gets an order of its own, by what the cells score for it.
ghost use Rattle.std.specs.Prelude.{◌≡◌, ◌<◌, length, IfOk};
ghost use Rattle.auctioneer.specs.Fields.{IsFieldOf};
ghost use Rattle.auctioneer.specs.Spots.{AreSpotsFor, IsRanking, IsSpotOf};

use crate::field::{Field, Own};
use crate::spots::{Spot, Spots, load_of, spots_with_room};
use cell_records::{Job, JobName};
use diego_names::OutOfMemory;

impl Field {
    // The spot of the cell at that place, by what it scores for the job now.
    fn spot_for(&self, job: &JobName, at: usize) -> Spot
        requires field { IsFieldOf self.now }
        requires inside { at < length self.now.stands.items }
        ensures { IsSpotOf job.now self.now.groups.items self.now.stands.items at result }
    {
        let stand = &self.stands[at];
        let group = self.common.all[at].group;
        let in_zone = if self.groups[group].zone.is_some() {
            0
        } else {
            self.in_zones.count(job, &stand.zone)
        };
        Spot {
            group,
            in_zone,
            on_cell: self.on_cells.count(job, &stand.cell),
            load: load_of(stand),
            cell: at,
        }
    }

    // The cells by what they score for the job now.
    fn spots_made(&self, job: &JobName) -> Result<Vec<Spot>, OutOfMemory>
        requires { IsFieldOf self.now }
        ensures { IfOk result
            (λ all. AreSpotsFor job.now self.now.groups.items self.now.stands.items all.items) }
    {
        let mut all = Vec::new(self.alloc);
        for at in 0..self.stands.len() {
            all.push(self.spot_for(job, at))?;
        }
        Ok(all)
    }

    // These in their order, but for the cells that lack room for the job.
    fn order_made(&self, job: &Job) -> Result<Spots, OutOfMemory>
        requires { IsFieldOf self.now }
        ensures { IfOk result (IsRanking job.now.job self.now.groups.items self.now.stands.items) }
    {
        let all = self.spots_made(&job.job)?;
        spots_with_room(self.alloc, all, self.stands.as_slice(), job)
    }

    // Lets the order of the job's own process know what the cell at that place scores now.
    fn renew_at(&mut self, job: &JobName, at: usize)
        requires field { IsFieldOf self.old }
        requires inside { at < length self.old.stands.items }
        ensures stands { self.new.stands.items ≡ self.old.stands.items }
        ensures field { IsFieldOf self.new }
    {
        let spot = self.spot_for(job, at);
        if let JobName::Lrp(key) = job {
            if let Some(own) = &mut self.own {
                if own.process == key.process {
                    own.spots.move_cell(at, spot);
                }
            }
        }
    }

    // Whether the job's process has an order of its own.
    pub(crate) fn has_own(&self, job: &JobName) -> bool {
        match (job, &self.own) {
            (JobName::Lrp(key), Some(own)) => own.process == key.process,
            _ => false,
        }
    }

    // The same for each cell of which a job on the cell at that place changes the score: where zones aren't
    // kept apart that is each of its zone.
    pub(crate) fn renew_own(&mut self, job: &JobName, at: usize)
        requires field { IsFieldOf self.old }
        requires inside { at < length self.old.stands.items }
        ensures stands { self.new.stands.items ≡ self.old.stands.items }
        ensures field { IsFieldOf self.new }
    {
        if !self.has_own(job) {
            return;
        }
        let group = self.common.all[at].group;
        if self.groups[group].zone.is_some() {
            self.renew_at(job, at);
        } else {
            self.renew_zone(job, at);
        }
    }

    // The same for each cell of the zone.
    fn renew_zone(&mut self, job: &JobName, at: usize)
        requires field { IsFieldOf self.old }
        requires inside { at < length self.old.stands.items }
        ensures stands { self.new.stands.items ≡ self.old.stands.items }
        ensures field { IsFieldOf self.new }
    {
        let zone = self.stands[at].zone;
        for other in 0..self.stands.len() {
            if self.stands[other].zone == zone {
                self.renew_at(job, other);
            }
        }
    }

    // Gives the job's process an order of its own, without the cells that lack room for the job. Without memory
    // the others serve on.
    pub(crate) fn give_own(&mut self, job: &Job)
        requires { IsFieldOf self.old }
        ensures stands { self.new.stands.items ≡ self.old.stands.items }
        ensures field { IsFieldOf self.new }
    {
        if let JobName::Lrp(key) = job.job {
            let process = key.process;
            match self.order_made(job) {
                Ok(spots) => self.own = Some(Own { process, spots }),
                Err(_) => {}
            }
        }
    }
}
