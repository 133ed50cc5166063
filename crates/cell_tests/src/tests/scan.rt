//! A store beside a plain scan over a list: the same calls, one after another, and the same answers.
use cell_records::{Amounts, Container, ContainerState, JobName};
use container_store::{ReserveFault, Store, StoreRefusal};
use diego_names::{Instance, Key, Name};
use std::alloc::Global;
use std::test::Fail;

const EPOCH: u64 = 5;

const TOTALS: Amounts = Amounts {
    memory: 1000,
    disk: 1000,
    containers: 12,
};

const CALLS: u32 = 20_000;

// What a store does, by looking at each container.
#[derive(Drop)]
struct Scan {
    containers: Vec<Container>,
    last: u32,
}

impl Scan {
    fn place_of(&self, number: u32) -> Option<usize> {
        self.containers
            .iter()
            .position(|container| container.instance.number == number)
    }

    fn first_of(&self, job: &JobName) -> Option<Container> {
        self.containers
            .iter()
            .copied()
            .find(|container| container.job == *job)
    }

    fn uncompleted_of(&self, job: &JobName) -> Option<Container> {
        self.containers.iter().copied().find(|container| container.job == *job
            && has_not_ended(container))
    }

    fn reserve(&mut self, job: JobName) -> Result<Instance, ReserveFault> {
        if self.containers.len() >= 12 {
            return Err(ReserveFault::Refused(StoreRefusal::NoSlot));
        }
        let number = self.last.wrapping_add(1);
        let instance = Instance {
            epoch: EPOCH,
            number,
        };
        let container = Container {
            instance,
            job,
            memory: 1,
            disk: 1,
            state: ContainerState::Reserved,
        };
        if self.containers.push(container).is_err() {
            return Err(ReserveFault::OutOfMemory);
        }
        self.last = number;
        Ok(instance)
    }

    fn complete(&mut self, number: u32, failed: bool) -> Result<(), StoreRefusal> {
        let at = self.place_of(number).ok_or(StoreRefusal::Unknown)?;
        let Some(container) = self.containers.get_mut(at) else {
            return Err(StoreRefusal::Unknown);
        };
        if !has_not_ended(container) {
            return Err(StoreRefusal::WrongState);
        }
        container.state = ContainerState::Completed { failed };
        Ok(())
    }

    fn remove(&mut self, number: u32) -> Result<(), StoreRefusal> {
        let at = self.place_of(number).ok_or(StoreRefusal::Unknown)?;
        if at >= self.containers.len() {
            return Err(StoreRefusal::Unknown);
        }
        self.containers.remove(at);
        Ok(())
    }

    fn run_each(&mut self, job: &JobName) {
        for container in self.containers.iter_mut() {
            if container.job == *job && container.state == ContainerState::Reserved {
                container.state = ContainerState::Running;
            }
        }
    }
}

fn has_not_ended(container: &Container) -> bool {
    match container.state {
        ContainerState::Completed { .. } => false,
        _ => true,
    }
}

// One call, chosen by a number: whether both answer it alike.
fn call_alike(store: &mut Store, scan: &mut Scan, job: &JobName, choice: u32) -> bool {
    let number = scan.last.wrapping_sub(choice / 8 % 32);
    let instance = Instance {
        epoch: EPOCH,
        number,
    };
    match choice % 8 {
        0 | 1 | 2 => store.reserve(*job, 1, 1) == scan.reserve(*job),
        3 | 4 => store.complete(&instance, choice % 16 > 7)
            == scan.complete(number, choice % 16 > 7),
        5 => {
            store.run_each(&Some(*job));
            scan.run_each(job);
            true
        }
        _ => store.remove(&instance) == scan.remove(number),
    }
}

// Whether both have the same containers, and find the same ones of a job.
fn are_alike(alloc: Global, store: &Store, scan: &Scan, job: &JobName) -> bool {
    if store.first_of(job) != scan.first_of(job) {
        return false;
    }
    if store.uncompleted_of(job) != scan.uncompleted_of(job) {
        return false;
    }
    match store.containers(alloc) {
        Err(_) => false,
        Ok(containers) => containers.as_slice() == scan.containers.as_slice(),
    }
}

// How many calls both answer alike, one after another.
fn calls_alike(alloc: Global, store: &mut Store, scan: &mut Scan, jobs: &[JobName; 4]) -> u32 {
    let mut seed = 1u32;
    for done in 0..CALLS {
        seed = seed.wrapping_mul(1_664_525).wrapping_add(1_013_904_223);
        let choice = seed >> 12;
        let job = &jobs[(choice >> 8) as usize % 4];
        if !call_alike(store, scan, job, choice) || !are_alike(alloc, store, scan, job) {
            return done;
        }
    }
    CALLS
}

// It owns the store, so that it neither asserts nor returns early.
fn count_alike(alloc: Global, jobs: &[JobName; 4]) -> u32 {
    let mut store = Store::new(alloc, TOTALS, EPOCH);
    let mut scan = Scan {
        containers: Vec::new(alloc),
        last: 0,
    };
    calls_alike(alloc, &mut store, &mut scan, jobs)
}

#[test]
fn a_store_does_what_a_scan_does(rt: HostRuntime) -> Result<(), Fail> {
    let name = Name::read(b"a")?;
    let other = Name::read(b"b")?;
    let jobs = [
        JobName::Task(name),
        JobName::Task(other),
        JobName::Lrp(Key {
            process: name,
            index: 0,
        }),
        JobName::Lrp(Key {
            process: name,
            index: 1,
        }),
    ];
    assert_eq!(rt; count_alike(rt.alloc(), &jobs), CALLS);
    Ok(())
}
