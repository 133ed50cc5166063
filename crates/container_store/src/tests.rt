use super::*;
use cell_records::{Amounts, Container, ContainerState, JobName};
use diego_names::{Instance, Key, Name};
use std::test::Fail;

const TOTALS: Amounts = Amounts {
    memory: 100,
    disk: 100,
    containers: 2,
};

fn task(name: &[u8]) -> Result<JobName, Fail> {
    Ok(JobName::Task(Name::read(name)?))
}

fn instance(number: u32) -> Instance {
    Instance { epoch: 5, number }
}

#[test]
fn a_store_of_two_slots(rt: HostRuntime) -> Result<(), Fail> {
    let job = &task(b"t1")?;
    let mut store = Store::new(rt.alloc(), TOTALS, 5);
    assert_eq!(rt; store.reserve(*job, 60, 10), Ok(instance(1)));
    let refused = ReserveFault::Refused(StoreRefusal::NoMemoryLeft);
    assert_eq!(rt; store.reserve(*job, 50, 10), Err(refused));
    assert_eq!(rt; store.reserve(*job, 40, 90), Ok(instance(2)));
    let refused = ReserveFault::Refused(StoreRefusal::NoSlot);
    assert_eq!(rt; store.reserve(*job, 0, 0), Err(refused));
    assert_eq!(rt; store.remove(&instance(9)), Err(StoreRefusal::Unknown));
    assert_eq!(rt; store.complete(&instance(1), true), Ok(()));
    assert_eq!(rt;
        store.complete(&instance(1), true),
        Err(StoreRefusal::WrongState)
    );
    Ok(())
}

#[test]
fn a_full_store_refuses_and_stays(rt: HostRuntime) -> Result<(), Fail> {
    let job = &task(b"t1")?;
    let mut store = Store::new(rt.alloc(), TOTALS, 5);
    assert_eq!(rt; store.reserve(*job, 60, 90), Ok(instance(1)));
    let left = Amounts {
        memory: 40,
        disk: 10,
        containers: 1,
    };
    for (memory, disk, why) in [
        (41, 11, StoreRefusal::NoMemoryLeft),
        (40, 11, StoreRefusal::NoDiskLeft),
    ] {
        assert_eq!(rt;
            store.reserve(*job, memory, disk),
            Err(ReserveFault::Refused(why))
        );
        assert_eq!(rt;
            (store.free(), store.last(), store.is_empty()),
            (left, 1, false)
        );
    }
    Ok(())
}

#[test]
fn numbers_rise_and_never_come_again(rt: HostRuntime) -> Result<(), Fail> {
    let job = &task(b"t1")?;
    let mut store = Store::new(rt.alloc(), TOTALS, 5);
    store.holds();
    assert_eq!(rt; store.reserve(*job, 100, 100), Ok(instance(1)));
    assert_eq!(rt; store.run(&instance(1)), Ok(()));
    assert_eq!(rt; store.run(&instance(1)), Err(StoreRefusal::WrongState));
    assert_eq!(rt; store.remove(&instance(1)), Ok(()));
    assert_eq!(rt; store.free(), TOTALS);
    assert_eq!(rt; store.reserve(*job, 100, 100), Ok(instance(2)));
    assert_eq!(rt;
        (store.totals(), store.epoch(), store.last()),
        (TOTALS, 5, 2)
    );
    Ok(())
}

// Whether each of two containers runs.
fn states_in(containers: &[Container]) -> (bool, bool) {
    match containers {
        [a, b] => (
            a.state == ContainerState::Running,
            b.state == ContainerState::Running,
        ),
        _ => (false, false),
    }
}

#[test]
fn only_the_containers_of_the_job_run(rt: HostRuntime) -> Result<(), Fail> {
    let process = Name::read(b"t1")?;
    let web = &JobName::Lrp(Key { process, index: 0 });
    let job = &task(b"t1")?;
    let mut store = Store::new(rt.alloc(), TOTALS, 5);
    assert_eq!(rt; store.reserve(*web, 1, 1), Ok(instance(1)));
    assert_eq!(rt; store.reserve(*job, 1, 1), Ok(instance(2)));
    store.run_each(&Some(*job));
    assert_eq!(rt; states_in(&store.containers(rt.alloc())?), (false, true));
    store.run_each(&None);
    assert_eq!(rt; states_in(&store.containers(rt.alloc())?), (true, true));
    Ok(())
}
