//! The containers of a cell. Numbers are given in turn and never again, so an instance names one
//! container. They are kept by number; beside them stands the number of each by its job.
ghost use Rattle.std.specs.Prelude.{◌≡◌, ◌==◌, length, MatchResult};
ghost use Rattle.container_store.specs.Store.{IsStore, new_store, free_of};
ghost use Rattle.container_store.specs.Changes.{next_of, reserving, IsReserveFault, running, running_each, completing, removing};

use crate::containers::{put_container, set_state};
use crate::entries::{JobEntry, job_entry};
use crate::refusal::{ReserveFault, StoreRefusal};
use cell_records::{Amounts, Container, ContainerState, JobName};
use diego_names::Instance;
use std::alloc::Global;
use std::collections::{BTreeMap, BTreeSet};
use std::marker::Model;

/// What a cell keeps of its containers.
#[derive(Debug, Drop)]
pub struct Store {
    totals: Amounts,
    pub(crate) epoch: u64,
    // By number.
    pub(crate) containers: BTreeMap<u32, Container>,
    // The entry of each of them.
    pub(crate) jobs: BTreeSet<JobEntry>,
    last: u32,
    used_memory: u32,
    used_disk: u32,
}

impl Model for Store {
    ghost use Rattle.container_store.specs.Store.{StoreView};

    ghost Value = { StoreView };

    ghost use Rattle.container_store.specs.Inside.{store_view_of, IsInside};

    ghost view = { store_view_of };

    ghost invariant = { IsInside };
}

impl Store {
    /// The store of a cell that has just joined, which takes no memory yet. The totals are in MB.
    pub fn new(alloc: Global, totals: Amounts, epoch: u64) -> Store
        ensures { result ≡ new_store totals epoch }
    {
        Store {
            totals,
            epoch,
            containers: BTreeMap::new(alloc),
            jobs: BTreeSet::new(alloc),
            last: 0,
            used_memory: 0,
            used_disk: 0,
        }
    }

    /// What holds of every store.
    pub fn holds(&self)
        ensures { IsStore self.now }
    {
        let _containers = &self.containers;
    }

    /// What the containers leave.
    pub fn free(&self) -> Amounts
        ensures { result ≡ free_of self.now }
    {
        let slots = self.totals.containers - self.containers.len() as u32;
        Amounts {
            memory: self.totals.memory - self.used_memory,
            disk: self.totals.disk - self.used_disk,
            containers: slots.min(u32::MAX - self.last),
        }
    }

    /// Whether there is no container.
    pub fn is_empty(&self) -> bool
        ensures { result ≡ (length self.now.containers == 0) }
    {
        self.containers.is_empty()
    }

    pub fn totals(&self) -> Amounts
        ensures { result ≡ self.now.totals }
    {
        self.totals
    }

    pub fn epoch(&self) -> u64
        ensures { result ≡ self.now.epoch }
    {
        self.epoch
    }

    /// The last number that was given, and 0 before the first.
    pub fn last(&self) -> u32
        ensures { result ≡ self.now.last }
    {
        self.last
    }

    /// Makes room for a job, in MB. It gives the new container's instance, whose number was never
    /// given. What there is too little of is told in the order memory, disk, slots.
    pub fn reserve(
        &mut self,
        job: JobName,
        memory: u32,
        disk: u32,
    ) -> Result<Instance, ReserveFault>
        ensures { MatchResult result
            (λ i. (i ≡ next_of self.old) × (reserving self.old job memory disk ≡ Ok self.new))
            (λ fault. IsReserveFault (reserving self.old job memory disk) fault
            × (self.new ≡ self.old)) }
    {
        let free = self.free();
        if memory > free.memory {
            return Err(ReserveFault::Refused(StoreRefusal::NoMemoryLeft));
        }
        if disk > free.disk {
            return Err(ReserveFault::Refused(StoreRefusal::NoDiskLeft));
        }
        if free.containers == 0 {
            return Err(ReserveFault::Refused(StoreRefusal::NoSlot));
        }
        let instance = Instance {
            epoch: self.epoch,
            number: self.last + 1,
        };
        let container = Container {
            instance,
            job,
            memory,
            disk,
            state: ContainerState::Reserved,
        };
        match put_container(&mut self.containers, &mut self.jobs, container) {
            Err(_) => Err(ReserveFault::OutOfMemory),
            Ok(()) => {
                self.last += 1;
                self.used_memory += memory;
                self.used_disk += disk;
                Ok(instance)
            }
        }
    }

    /// A RESERVED container runs.
    pub fn run(&mut self, instance: &Instance) -> Result<(), StoreRefusal>
        ensures { MatchResult result
            (λ _. running self.old instance.now ≡ Ok self.new)
            (λ why. (running self.old instance.now ≡ Err why) × (self.new ≡ self.old)) }
    {
        match self.state_of(instance) {
            None => Err(StoreRefusal::Unknown),
            Some(ContainerState::Reserved) => {
                set_state(
                    &mut self.containers,
                    instance.number,
                    ContainerState::Running,
                );
                Ok(())
            }
            Some(_) => Err(StoreRefusal::WrongState),
        }
    }

    /// A container that has not ended ends.
    pub fn complete(&mut self, instance: &Instance, failed: bool) -> Result<(), StoreRefusal>
        ensures { MatchResult result
            (λ _. completing self.old instance.now failed ≡ Ok self.new)
            (λ why. (completing self.old instance.now failed ≡ Err why)
            × (self.new ≡ self.old)) }
    {
        match self.state_of(instance) {
            None => Err(StoreRefusal::Unknown),
            Some(state) => match state {
                ContainerState::Completed { .. } => Err(StoreRefusal::WrongState),
                _ => {
                    set_state(
                        &mut self.containers,
                        instance.number,
                        ContainerState::Completed { failed },
                    );
                    Ok(())
                }
            },
        }
    }

    /// A container goes, whatever its state, and its memory and disk are free again.
    pub fn remove(&mut self, instance: &Instance) -> Result<(), StoreRefusal>
        ensures { MatchResult result
            (λ _. removing self.old instance.now ≡ Ok self.new)
            (λ why. (removing self.old instance.now ≡ Err why) × (self.new ≡ self.old)) }
    {
        let container = *self.find(instance).ok_or(StoreRefusal::Unknown)?;
        self.containers.remove(&instance.number);
        self.jobs
            .remove(&job_entry(&container.job, instance.number));
        self.used_memory -= container.memory;
        self.used_disk -= container.disk;
        Ok(())
    }
}
