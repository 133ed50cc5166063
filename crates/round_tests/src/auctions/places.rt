//! Ties, and containers that have ended.
use super::checks::are_placed;
use super::making::{Site, TOTALS, cell, container, lrp, on};
use auctioneer::{
    each_job_has_one_placement, placements_name_answers, placements_spread_over_zones,
    placements_take_room,
};
use cell_records::ContainerState;
use std::test::Fail;

#[test]
fn between_equal_cells_the_name_decides(rt: HostRuntime) -> Result<(), Fail> {
    let cells = [
        cell(b"b1", b"z", TOTALS)?,
        cell(b"a10", b"z", TOTALS)?,
        cell(b"a2", b"z", TOTALS)?,
        cell(b"a1", b"z", TOTALS)?,
    ];
    let job = lrp(b"web", 0, 64, 64)?;
    are_placed(&rt, rt.alloc(), &[job], &cells, &[on(&job, b"a1")?])
}

#[test]
fn ended_containers_are_not_counted(rt: HostRuntime) -> Result<(), Fail> {
    let job = lrp(b"web", 2, 64, 64)?;
    let other = lrp(b"web", 1, 64, 64)?.job;
    let ended = ContainerState::Completed { failed: true };
    for (first, second, want) in [
        (ended, ContainerState::Running, b"c1"),
        (ContainerState::Reserved, ended, b"c2"),
    ] {
        let c1 = Site {
            holds: Some(container(other, first)),
            ..cell(b"c1", b"z1", TOTALS)?
        };
        let c2 = Site {
            holds: Some(container(other, second)),
            ..cell(b"c2", b"z2", TOTALS)?
        };
        are_placed(&rt, rt.alloc(), &[job], &[c2, c1], &[on(&job, want)?])?;
    }
    Ok(())
}

#[test]
fn the_laws_can_be_cited(_rt: HostRuntime) {
    each_job_has_one_placement();
    placements_name_answers();
    placements_spread_over_zones();
    placements_take_room();
}
