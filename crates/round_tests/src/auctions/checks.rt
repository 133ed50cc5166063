//! What must come of an auction. Lists are made here, so that a test holds nothing that has to be dropped.
use super::making::{Site, answers_of};
use auctioneer::{Placement, are_cells, are_jobs, run_auction, scan_auction};
use cell_records::{Answer, Job};
use diego_names::List;
use std::alloc::Global;
use std::process::Abort;
use std::test::Fail;

// What comes of an auction over these answers, by the code and by the scan, which agree.
fn placed_over(
    rt: &impl Abort,
    alloc: Global,
    jobs: &[Job],
    cells: &[Answer],
) -> Result<List<Placement>, Fail> {
    assert!(rt; are_jobs(jobs));
    assert!(rt; are_cells(cells));
    let placed = run_auction(alloc, jobs, cells)?;
    let scanned = scan_auction(alloc, jobs, cells)?;
    assert!(rt; placed.items() == scanned.items());
    Ok(placed)
}

/// The same over the answers of these cells.
pub(super) fn placed_on(
    rt: &impl Abort,
    alloc: Global,
    jobs: &[Job],
    cells: &[Site],
) -> Result<List<Placement>, Fail> {
    let answers = answers_of(alloc, cells)?;
    placed_over(rt, alloc, jobs, answers.items())
}

/// Where the jobs must go, in the order of the auction.
pub(super) fn are_placed(
    rt: &impl Abort,
    alloc: Global,
    jobs: &[Job],
    cells: &[Site],
    wanted: &[Placement],
) -> Result<(), Fail> {
    let placed = placed_on(rt, alloc, jobs, cells)?;
    assert_eq!(rt; placed.items(), wanted);
    Ok(())
}
