//! How many cells jobs look at, and when that gives them another order.
ghost use Rattle.std.specs.Prelude.{◌≡◌};
ghost use Rattle.auctioneer.specs.Fields.{IsFieldOf};

use crate::field::Field;
use crate::looks::Looks;
use cell_records::{Job, JobName};
use diego_names::Name;

impl Field {
    // How many cells that fitted the jobs of the process, one behind the other, have looked at.
    fn looks_of(&self, process: Name) -> usize {
        if self.watched == Some(process) {
            self.looked
        } else {
            0
        }
    }

    // Adds what a job looked at.
    fn add_looks(&mut self, job: &JobName, looks: Looks)
        requires { IsFieldOf self.old }
        ensures stands { self.new.stands.items ≡ self.old.stands.items }
        ensures field { IsFieldOf self.new }
    {
        self.in_vain = self.in_vain.saturating_add(looks.in_vain);
        if let JobName::Lrp(key) = job {
            let before = self.looks_of(key.process);
            self.watched = Some(key.process);
            self.looked = before.saturating_add(looks.fitting);
        }
    }

    // Whether there were twice as many looks as there are cells. An order then costs about as much.
    fn are_many(&self, looks: usize) -> bool {
        looks / 2 > self.stands.len()
    }

    // Where jobs looked at many cells in vain, leaves these out of the order that the job goes by.
    fn leave_out(&mut self, job: &Job)
        requires { IsFieldOf self.old }
        ensures stands { self.new.stands.items ≡ self.old.stands.items }
        ensures field { IsFieldOf self.new }
    {
        if !self.are_many(self.in_vain) {
            return;
        }
        self.in_vain = 0;
        if self.has_own(&job.job) {
            self.give_own(job);
        } else {
            self.give_lean(job);
        }
    }

    // Takes note of what a job looked at. Where the jobs of one process, one behind the other, looked at many cells
    // that fitted them, it gets an order of its own.
    pub(crate) fn watch(&mut self, job: &Job, looks: Looks)
        requires { IsFieldOf self.old }
        ensures stands { self.new.stands.items ≡ self.old.stands.items }
        ensures field { IsFieldOf self.new }
    {
        self.add_looks(&job.job, looks);
        self.leave_out(job);
        if self.are_many(self.looked) {
            self.looked = 0;
            self.give_own(job);
        }
    }
}
