//! The containers of a store: one by its instance, those of a job in order of number, and all.
ghost use Rattle.std.specs.Prelude.{◌≡◌, find, IfOk, Some, None};
ghost use Rattle.std.specs.Option.{option_copied, option_map};
ghost use Rattle.container_store.specs.Lookups.{first_of, uncompleted_of, those_of, is_later};
ghost use Rattle.container_store.specs.Store.{find_container};

use crate::containers::is_uncompleted;
use crate::entries::job_entry;
use crate::jobs::is_same_job;
use crate::store::Store;
use cell_records::{Container, ContainerState, JobName};
use diego_names::{Instance, OutOfMemory};
use std::alloc::Global;
use std::ops::Bound;

impl Store {
    /// The container of an instance.
    pub(crate) fn find(&self, instance: &Instance) -> Option<&Container>
        ensures { option_copied result ≡ find_container instance.now self.now.containers }
    {
        if instance.epoch != self.epoch {
            return None;
        }
        self.containers.get(&instance.number)
    }

    pub(crate) fn state_of(&self, instance: &Instance) -> Option<ContainerState>
        ensures { result
            ≡ option_map (λ c. c.state) (find_container instance.now self.now.containers) }
    {
        match self.find(instance) {
            None => None,
            Some(container) => Some(container.state),
        }
    }

    // The first container that has a greater number.
    fn next(&self, after: u32) -> Option<&Container>
        ensures { option_copied result ≡ find (is_later None after) self.now.containers }
    {
        let after = Bound::Excluded(after);
        let (_, container) = self.containers.range((after, Bound::Unbounded)).next()?;
        Some(container)
    }

    // The first container of a job that has a greater number.
    fn next_of(&self, job: &JobName, after: u32) -> Option<&Container>
        ensures { option_copied result ≡ find (is_later (Some job.now) after) self.now.containers }
    {
        let after = Bound::Excluded(job_entry(job, after));
        let entry = self.jobs.range((after, Bound::Unbounded)).next()?;
        let container = self.containers.get(&entry.number)?;
        if is_same_job(job, &container.job) {
            Some(container)
        } else {
            None
        }
    }

    // The first of the job that is named, or of any.
    pub(crate) fn next_in(&self, named: &Option<JobName>, after: u32) -> Option<&Container>
        ensures { option_copied result ≡ find (is_later named.now after) self.now.containers }
    {
        match named {
            None => self.next(after),
            Some(job) => self.next_of(job, after),
        }
    }

    /// The first container of a job.
    pub fn first_of(&self, job: &JobName) -> Option<Container>
        ensures { result ≡ first_of job.now self.now.containers }
    {
        self.holds();
        self.next_of(job, 0).copied()
    }

    /// The first container of a job that has not ended. It looks at those of the job alone.
    pub fn uncompleted_of(&self, job: &JobName) -> Option<Container>
        ensures { result ≡ uncompleted_of job.now self.now.containers }
    {
        self.holds();
        let mut after = 0;
        while let Some(container) = self.next_of(job, after) {
            if is_uncompleted(container) {
                return Some(*container);
            }
            after = container.instance.number;
        }
        None
    }

    /// The containers, in order of number.
    pub fn containers(&self, alloc: Global) -> Result<Vec<Container>, OutOfMemory>
        ensures { IfOk result (λ list. list.items ≡ self.now.containers) }
    {
        Ok(self.containers.values().copied().collect(alloc)?)
    }

    // Those of one job.
    fn containers_of(&self, alloc: Global, job: &JobName) -> Result<Vec<Container>, OutOfMemory>
        ensures { IfOk result (λ list. list.items ≡ those_of (Some job.now) self.now.containers) }
    {
        self.holds();
        let mut list = Vec::new(alloc);
        let mut after = 0;
        while let Some(container) = self.next_of(job, after) {
            list.push(*container)?;
            after = container.instance.number;
        }
        Ok(list)
    }

    /// The containers of the job that is named, or all where none is named, in order of number. It
    /// looks at those of the job alone.
    pub fn those_of(
        &self,
        alloc: Global,
        named: &Option<JobName>,
    ) -> Result<Vec<Container>, OutOfMemory>
        ensures { IfOk result (λ list. list.items ≡ those_of named.now self.now.containers) }
    {
        match named {
            None => self.containers(alloc),
            Some(job) => self.containers_of(alloc, job),
        }
    }
}
