use super::*;
use crash_backoff::Moment;
use diego_names::{Instance, Key, List, Name};
use std::test::Fail;

const TOTALS: Amounts = Amounts {
    memory: 1024,
    disk: 4096,
    containers: 10,
};

fn cell() -> Result<CellRow, Fail> {
    Ok(CellRow {
        cell: Name::read(b"c1")?,
        zone: Name::read(b"z1")?,
        tag: None,
        totals: TOTALS,
        epoch: 4,
        until: 60,
        evacuating: false,
    })
}

fn completed(job: &Job) -> Container {
    Container {
        instance: Instance {
            epoch: 4,
            number: 1,
        },
        job: job.job,
        memory: job.memory,
        disk: job.disk,
        state: ContainerState::Completed { failed: true },
    }
}

#[test]
fn a_cell_is_present_until_its_lease_ends(rt: HostRuntime) -> Result<(), Fail> {
    let row = cell()?;
    for (until, now, want) in [
        (60, 59, true),
        (60, 60, false),
        (60, 61, false),
        (0, 0, false),
        (4_294_967_296, 4_294_967_295, true),
    ] {
        let leased = CellRow { until, ..row };
        assert_eq!(rt; leased.is_present(Moment(now)), want, "{now} of {until}");
    }
    Ok(())
}

#[test]
fn a_cell_answers_with_its_containers(rt: HostRuntime) -> Result<(), Fail> {
    let row = cell()?;
    let process = Name::read(b"web")?;
    let job = Job {
        job: JobName::Lrp(Key { process, index: 2 }),
        memory: 256,
        disk: 1024,
        tag: None,
    };
    let mut containers = List::new(rt.alloc());
    containers.push(completed(&job))?;
    let answer = Answer {
        cell: row.cell,
        zone: row.zone,
        tag: row.tag,
        epoch: row.epoch,
        evacuating: row.evacuating,
        totals: row.totals,
        free: Amounts {
            memory: 768,
            disk: 3072,
            containers: 9,
        },
        last: 1,
        containers,
    };
    assert_eq!(rt; answer.containers.items(), [completed(&job)].as_slice());
    Ok(())
}
