//! Worked auctions.
use super::checks::are_placed;
use super::making::{Site, TOTALS, cell, lrp, on, task};
use auctioneer::Placement;
use cell_records::Job;
use diego_names::Name;
use std::test::Fail;

const P: &[u8] = b"11111111-2222-3333-4444-555555555555-66666666-7777-8888-9999-aaaaaaaaaaaa";

const Q: &[u8] = b"bbbbbbbb-2222-3333-4444-555555555555-66666666-7777-8888-9999-aaaaaaaaaaaa";

// Two cells in each of two zones.
fn two_zones() -> Result<[Site; 4], Fail> {
    Ok([
        cell(b"c4", b"z2", TOTALS)?,
        cell(b"c1", b"z1", TOTALS)?,
        cell(b"c3", b"z2", TOTALS)?,
        cell(b"c2", b"z1", TOTALS)?,
    ])
}

// Where the jobs go over two zones.
fn over_zones(
    migrate: &Job,
    p0: &Job,
    p1: &Job,
    p2: &Job,
    q0: &Job,
) -> Result<[Placement; 5], Fail> {
    Ok([
        on(q0, b"c1")?,
        on(p0, b"c2")?,
        on(migrate, b"c3")?,
        on(p1, b"c4")?,
        on(p2, b"c3")?,
    ])
}

#[test]
fn first_instances_tasks_and_others_go_to_empty_zones_and_cells(
    rt: HostRuntime,
) -> Result<(), Fail> {
    let migrate = task(b"migrate-1", 128, 512)?;
    let p0 = lrp(P, 0, 256, 1024)?;
    let p1 = lrp(P, 1, 256, 1024)?;
    let p2 = lrp(P, 2, 256, 1024)?;
    let q0 = lrp(Q, 0, 512, 1024)?;
    let wanted = over_zones(&migrate, &p0, &p1, &p2, &q0)?;
    let jobs = [p2, migrate, p0, q0, p1];
    are_placed(&rt, rt.alloc(), &jobs, &two_zones()?, &wanted)
}

#[test]
fn a_job_without_room_changes_nothing_for_the_others(rt: HostRuntime) -> Result<(), Fail> {
    let cells = [cell(b"c1", b"z1", TOTALS)?];
    let first = lrp(b"a", 0, 4000, 10)?;
    let large = lrp(b"b", 0, 2000, 10)?;
    let small = lrp(b"c", 0, 96, 10)?;
    let tagged = Job {
        tag: Some(Name::read(b"gpu")?),
        ..lrp(b"d", 0, 1, 1)?
    };
    let wanted = [
        on(&first, b"c1")?,
        Placement::NoRoom { job: large.job },
        on(&small, b"c1")?,
        Placement::NoRoom { job: tagged.job },
    ];
    are_placed(
        &rt,
        rt.alloc(),
        &[tagged, small, large, first],
        &cells,
        &wanted,
    )
}
