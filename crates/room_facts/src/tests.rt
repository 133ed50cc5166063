//! Stands are made in one place, so that a test holds nothing that has to be dropped.
use super::*;
use auctioneer::Stand;
use cell_records::{Amounts, Job, JobName};
use diego_names::{Key, List, Name, OutOfMemory};
use std::alloc::Global;
use std::test::Fail;

const LARGEST: u32 = 4_294_967_295;

// A cell by its tag and what it has free.
type Site = (Option<Name>, Amounts);

const NO_REASON: Reasons = Reasons {
    cells: 0,
    other_tag: 0,
    memory: 0,
    disk: 0,
    containers: 0,
    memory_disk: 0,
    memory_containers: 0,
    disk_containers: 0,
    memory_disk_containers: 0,
};

// Why a job has no room, and the most that is free.
#[derive(Clone, Copy, Debug, PartialEq, Eq)]
struct Why {
    reasons: Reasons,
    most_free: Amounts,
}

// What is shown of a job, and what its tag asks for and has free.
#[derive(Clone, Copy, Debug, PartialEq, Eq)]
struct Shown {
    as_large: u64,
    room_for: u64,
    is_short: bool,
    asked: Sums,
    free: Sums,
}

fn amounts(memory: u32, disk: u32, containers: u32) -> Amounts {
    Amounts {
        memory,
        disk,
        containers,
    }
}

fn sums(memory: u64, disk: u64, containers: u64) -> Sums {
    Sums {
        memory,
        disk,
        containers,
    }
}

fn job(memory: u32, disk: u32) -> Result<Job, Fail> {
    let process = Name::read(b"web")?;
    Ok(Job {
        job: JobName::Lrp(Key { process, index: 0 }),
        memory,
        disk,
        tag: None,
    })
}

fn stands_of(alloc: Global, name: Name, sites: &[Site]) -> Result<Vec<Stand>, OutOfMemory> {
    let mut stands = Vec::new(alloc);
    for (tag, free) in sites {
        stands.push(Stand {
            cell: name,
            zone: name,
            tag: *tag,
            totals: *free,
            free: *free,
            jobs: List::new(alloc),
        })?;
    }
    Ok(stands)
}

fn why_of(stands: &[Stand], job: &Job) -> Option<Why> {
    if stands.len() > 1000 {
        return None;
    }
    Some(Why {
        reasons: reasons_of(job, stands),
        most_free: most_free(&job.tag, stands),
    })
}

fn why_on(alloc: Global, name: Name, sites: &[Site], job: &Job) -> Option<Why> {
    match stands_of(alloc, name, sites) {
        Ok(stands) => why_of(&stands, job),
        Err(_) => None,
    }
}

fn shown_of(stands: &[Stand], jobs: &[Job], job: &Job) -> Option<Shown> {
    if stands.len() > 1000 || jobs.len() > 1000 {
        return None;
    }
    Some(Shown {
        as_large: as_large(job, jobs),
        room_for: room_for(job, stands),
        is_short: is_short(stands, jobs, job),
        asked: asked_in_all(&job.tag, jobs),
        free: free_in_all(&job.tag, stands),
    })
}

fn shown_on(alloc: Global, name: Name, sites: &[Site], jobs: &[Job], job: &Job) -> Option<Shown> {
    match stands_of(alloc, name, sites) {
        Ok(stands) => shown_of(&stands, jobs, job),
        Err(_) => None,
    }
}

#[test]
fn each_cell_is_counted_under_what_it_lacks(rt: HostRuntime) -> Result<(), Fail> {
    let name = Name::read(b"c1")?;
    let iso = Some(Name::read(b"iso")?);
    let sites = [
        (None, amounts(2048, 3192, 9)),
        (None, amounts(3584, 7680, 0)),
        (None, amounts(1024, 7680, 9)),
        (None, amounts(1024, 3192, 9)),
        (iso, amounts(4096, 8192, 10)),
    ];
    let big = job(2048, 4096)?;
    let wanted = Why {
        reasons: Reasons {
            cells: 5,
            other_tag: 1,
            memory: 1,
            disk: 1,
            containers: 1,
            memory_disk: 1,
            ..NO_REASON
        },
        most_free: amounts(3584, 7680, 9),
    };
    assert_eq!(rt; why_on(rt.alloc(), name, &sites, &big), Some(wanted));
    let short = Shown {
        as_large: 1,
        room_for: 0,
        is_short: true,
        asked: sums(2048, 4096, 1),
        free: sums(7680, 21744, 27),
    };
    assert_eq!(rt;
        shown_on(rt.alloc(), name, &sites, &[big], &big),
        Some(short)
    );
    Ok(())
}

#[test]
fn what_another_scheduler_could_place_is_not_short(rt: HostRuntime) -> Result<(), Fail> {
    let name = Name::read(b"c1")?;
    let (p, q, r) = (job(500, 100)?, job(300, 100)?, job(300, 100)?);
    let before = [
        (None, amounts(500, 9900, 9)),
        (None, amounts(600, 9900, 9)),
        (None, amounts(0, 9400, 5)),
    ];
    let unplaced = Shown {
        as_large: 3,
        room_for: 3,
        is_short: false,
        asked: sums(1100, 300, 3),
        free: sums(1100, 29200, 23),
    };
    assert_eq!(rt;
        shown_on(rt.alloc(), name, &before, &[p, q, r], &r),
        Some(unplaced)
    );
    let at_its_turn = [
        (None, amounts(200, 9800, 8)),
        (None, amounts(100, 9800, 8)),
        (None, amounts(0, 9400, 5)),
    ];
    let wanted = Why {
        reasons: Reasons {
            cells: 3,
            memory: 3,
            ..NO_REASON
        },
        most_free: amounts(200, 9800, 8),
    };
    assert_eq!(rt; why_on(rt.alloc(), name, &at_its_turn, &r), Some(wanted));
    Ok(())
}

#[test]
fn more_than_is_free_in_all_is_short(rt: HostRuntime) -> Result<(), Fail> {
    let name = Name::read(b"c1")?;
    let (x, y, z) = (job(500, 100)?, job(400, 100)?, job(300, 200)?);
    let w = job(100, 100)?;
    let sites = [
        (None, amounts(500, 9900, 9)),
        (None, amounts(600, 9900, 9)),
        (None, amounts(0, 9700, 7)),
    ];
    let short = Shown {
        as_large: 1,
        room_for: 3,
        is_short: true,
        asked: sums(1400, 600, 5),
        free: sums(1100, 29500, 25),
    };
    assert_eq!(rt;
        shown_on(rt.alloc(), name, &sites, &[x, y, z, w, w], &z),
        Some(short)
    );
    Ok(())
}

#[test]
fn a_size_of_0_bounds_nothing_and_sums_have_64_bits(rt: HostRuntime) -> Result<(), Fail> {
    let name = Name::read(b"c1")?;
    let iso = Some(Name::read(b"iso")?);
    let all = amounts(LARGEST, LARGEST, LARGEST);
    let none = amounts(0, 0, 0);
    let tagged = Job {
        tag: iso,
        ..job(1, 1)?
    };
    let sites = [(None, all), (None, all), (None, none)];
    for (number, size, room) in [
        (1, job(0, 0)?, 8_589_934_590),
        (2, job(1, 0)?, 8_589_934_590),
        (3, job(0, 2)?, 4_294_967_294),
        (4, job(LARGEST, LARGEST)?, 2),
        (5, tagged, 0),
    ] {
        let told = shown_on(rt.alloc(), name, &sites, &[size], &size);
        assert_eq!(rt;
            told.map(|shown: Shown| shown.room_for),
            Some(room),
            "{number}"
        );
    }
    let large = job(LARGEST, 0)?;
    let enough = Shown {
        as_large: 2,
        room_for: 2,
        is_short: false,
        asked: sums(8_589_934_590, 0, 2),
        free: sums(8_589_934_590, 8_589_934_590, 8_589_934_590),
    };
    assert_eq!(rt;
        shown_on(rt.alloc(), name, &sites, &[large, large], &large),
        Some(enough)
    );
    Ok(())
}

#[test]
fn full_cells_and_cells_of_other_tags_are_told_apart(rt: HostRuntime) -> Result<(), Fail> {
    let name = Name::read(b"c1")?;
    let iso = Some(Name::read(b"iso")?);
    let none = amounts(0, 0, 0);
    let sites = [
        (None, none),
        (None, amounts(5, 0, 0)),
        (None, amounts(0, 5, 0)),
    ];
    let nothing = job(0, 0)?;
    let full = Why {
        reasons: Reasons {
            cells: 3,
            containers: 3,
            ..NO_REASON
        },
        most_free: amounts(5, 5, 0),
    };
    assert_eq!(rt; why_on(rt.alloc(), name, &sites, &nothing), Some(full));
    let each = Why {
        reasons: Reasons {
            cells: 3,
            memory_containers: 1,
            disk_containers: 1,
            memory_disk_containers: 1,
            ..NO_REASON
        },
        most_free: amounts(5, 5, 0),
    };
    assert_eq!(rt; why_on(rt.alloc(), name, &sites, &job(5, 5)?), Some(each));
    let tagged = Job {
        tag: iso,
        ..nothing
    };
    let other = Why {
        reasons: Reasons {
            cells: 3,
            other_tag: 3,
            ..NO_REASON
        },
        most_free: none,
    };
    assert_eq!(rt; why_on(rt.alloc(), name, &sites, &tagged), Some(other));
    Ok(())
}

#[test]
fn the_laws_are_there(_rt: HostRuntime) -> Result<(), Fail> {
    jobs_fit_where_nothing_lacks();
    reasons_are_exact();
    short_has_no_placing();
    room_is_a_placing();
    alike_jobs_fill();
    Ok(())
}
