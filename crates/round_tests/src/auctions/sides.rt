//! Auctions that look like chance, by the code and by the scan.
use super::checks::placed_on;
use super::making::{Site, cell, container};
use auctioneer::Placement;
use cell_records::{Amounts, ContainerState, Job, JobName};
use diego_names::{Key, Name};
use std::alloc::Global;
use std::process::Abort;
use std::test::Fail;

// The next of a row of numbers that look like chance.
fn next(seed: &mut u64) -> u32 {
    *seed = seed
        .wrapping_mul(6_364_136_223_846_793_005)
        .wrapping_add(1_442_695_040_888_963_407);
    (*seed >> 33) as u32
}

fn pick(seed: &mut u64, names: &[&[u8]; 4]) -> Result<Name, Fail> {
    Ok(Name::read(names[(next(seed) % 4) as usize])?)
}

fn tag(seed: &mut u64) -> Result<Option<Name>, Fail> {
    if next(seed) % 4 == 0 {
        Ok(Some(Name::read(b"gpu")?))
    } else {
        Ok(None)
    }
}

const LETTERS: &[u8; 16] = b"abcdefghijklmnop";

// Some jobs of three processes and some tasks.
fn jobs(alloc: Global, seed: &mut u64) -> Result<Vec<Job>, Fail> {
    let mut jobs = Vec::new(alloc);
    for index in 0..16u32 {
        let letter = LETTERS[(index % 16) as usize];
        let job = match next(seed) % 4 {
            0 => JobName::Task(Name::read(&[letter])?),
            _ => JobName::Lrp(Key {
                process: pick(seed, &[b"p", b"q", b"r", b"r"])?,
                index,
            }),
        };
        jobs.push(Job {
            job,
            memory: 1 + next(seed) % 3,
            disk: 1,
            tag: tag(seed)?,
        })?;
    }
    Ok(jobs)
}

fn state(seed: &mut u64) -> ContainerState {
    match next(seed) % 4 {
        0 => ContainerState::Completed { failed: false },
        1 => ContainerState::Reserved,
        _ => ContainerState::Running,
    }
}

// Adds a cell, which may be full or of another size.
fn add_site(sites: &mut Vec<Site>, seed: &mut u64, letter: u8) -> Result<(), Fail> {
    let totals = Amounts {
        memory: 4 + next(seed) % 6,
        disk: 8,
        containers: 1 + next(seed) % 4,
    };
    let mut made = cell(&[letter], b"z", totals)?;
    made.zone = pick(seed, &[b"z1", b"z2", b"z3", b"z2"])?;
    made.tag = tag(seed)?;
    if next(seed) % 4 == 0 {
        made.free.containers = 0;
    }
    let process = pick(seed, &[b"p", b"q", b"r", b"s"])?;
    let job = JobName::Lrp(Key { process, index: 99 });
    made.holds = Some(container(job, state(seed)));
    Ok(sites.push(made)?)
}

// A few cells, some of them full or of another size.
fn sites(alloc: Global, seed: &mut u64) -> Result<Vec<Site>, Fail> {
    let mut sites = Vec::new(alloc);
    for at in 0..9u32 {
        let letter = LETTERS[(15 - at % 9) as usize];
        add_site(&mut sites, seed, letter)?;
    }
    Ok(sites)
}

// How many of the jobs have a place.
fn places(rt: &impl Abort, alloc: Global, jobs: &[Job], sites: &[Site]) -> Result<u64, Fail> {
    let placed = placed_on(rt, alloc, jobs, sites)?;
    let mut places = 0u64;
    for placement in placed.items() {
        if let Placement::On { .. } = placement {
            places = places.wrapping_add(1);
        }
    }
    Ok(places)
}

// The same in the next auction of those that look like chance.
fn next_places(rt: &impl Abort, alloc: Global, seed: &mut u64) -> Result<u64, Fail> {
    let jobs = jobs(alloc, seed)?;
    let sites = sites(alloc, seed)?;
    places(rt, alloc, &jobs, &sites)
}

#[test]
fn the_auction_agrees_with_the_scan(rt: HostRuntime) -> Result<(), Fail> {
    let mut seed = 7;
    let mut placed = 0u64;
    for _ in 0..300u32 {
        placed = placed.wrapping_add(next_places(&rt, rt.alloc(), &mut seed)?);
    }
    assert!(rt; placed > 1500 && placed < 4800);
    Ok(())
}
