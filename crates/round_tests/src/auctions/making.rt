//! Jobs and cells for the tests. A test holds cells as sites, which are copied; lists are made of them here.
use auctioneer::Placement;
use cell_records::{Amounts, Answer, Container, ContainerState, Job, JobName};
use diego_names::{Instance, Key, List, Name, OutOfMemory};
use std::alloc::Global;
use std::test::Fail;

/// A cell that answers, with one container at most.
#[derive(Clone, Copy)]
pub(super) struct Site {
    pub cell: Name,
    pub zone: Name,
    pub tag: Option<Name>,
    pub totals: Amounts,
    pub free: Amounts,
    pub holds: Option<Container>,
}

pub(super) const TOTALS: Amounts = Amounts {
    memory: 4096,
    disk: 16384,
    containers: 50,
};

pub(super) fn lrp(process: &[u8], index: u32, memory: u32, disk: u32) -> Result<Job, Fail> {
    let process = Name::read(process)?;
    Ok(Job {
        job: JobName::Lrp(Key { process, index }),
        memory,
        disk,
        tag: None,
    })
}

pub(super) fn task(name: &[u8], memory: u32, disk: u32) -> Result<Job, Fail> {
    Ok(Job {
        job: JobName::Task(Name::read(name)?),
        memory,
        disk,
        tag: None,
    })
}

/// A cell without a tag and without containers.
pub(super) fn cell(cell: &[u8], zone: &[u8], totals: Amounts) -> Result<Site, Fail> {
    Ok(Site {
        cell: Name::read(cell)?,
        zone: Name::read(zone)?,
        tag: None,
        totals,
        free: totals,
        holds: None,
    })
}

// An item in a list, if there is one.
fn listed<X: Copy>(alloc: Global, item: Option<X>) -> Result<List<X>, OutOfMemory> {
    let mut items = List::new(alloc);
    match item {
        None => {}
        Some(item) => items.push(item)?,
    }
    Ok(items)
}

// What a cell answers.
fn answer_of(alloc: Global, site: &Site) -> Result<Answer, OutOfMemory> {
    let containers = listed(alloc, site.holds)?;
    Ok(Answer {
        cell: site.cell,
        zone: site.zone,
        tag: site.tag,
        epoch: 0,
        evacuating: false,
        totals: site.totals,
        free: site.free,
        last: 0,
        containers,
    })
}

// Adds what a cell answers.
fn add_answer(alloc: Global, answers: &mut List<Answer>, site: &Site) -> Result<(), OutOfMemory> {
    answers.push(answer_of(alloc, site)?)
}

/// What the cells answer.
pub(super) fn answers_of(alloc: Global, sites: &[Site]) -> Result<List<Answer>, OutOfMemory> {
    let mut answers = List::new(alloc);
    for site in sites {
        add_answer(alloc, &mut answers, site)?;
    }
    Ok(answers)
}

pub(super) fn container(job: JobName, state: ContainerState) -> Container {
    Container {
        instance: Instance {
            epoch: 0,
            number: 1,
        },
        job,
        memory: 0,
        disk: 0,
        state,
    }
}

pub(super) fn on(job: &Job, cell: &[u8]) -> Result<Placement, Fail> {
    Ok(Placement::On {
        job: job.job,
        cell: Name::read(cell)?,
    })
}
