//! The auction by a scan of all cells for each job, with counts from scratch. It is short and slow:
//! what is faster is compared with it.
ghost use Rattle.std.specs.Prelude.{◌≡◌, IfOk, OnOk, MatchOption, None};
ghost use Rattle.auctioneer.specs.Asked.{AreJobs, AreAnswers, AreStands};
ghost use Rattle.auctioneer.specs.Auction.{auction, placement_on, stands_with};
ghost use Rattle.auctioneer.specs.Least.{best, IsBestAt};
ghost use Rattle.auctioneer.specs.Order.{in_order};
ghost use Rattle.auctioneer.specs.Stands.{view_in};

use crate::candidate::{Candidate, better_of, view_of};
use crate::counting::{held_of, in_zone};
use crate::placement::Placement;
use crate::placing::place_at;
use crate::stand::Stand;
use crate::standing::stands_of;
use crate::turns::in_order;
use auction_scoring::{CellView, fits, score};
use cell_records::{Answer, Job, JobName};
use diego_names::{List, OutOfMemory};
use std::alloc::Global;

// The cell as it is compared for the job.
fn view_in(stands: &[Stand], job: &JobName, stand: &Stand) -> CellView
    requires { AreStands stands.now }
    ensures { result ≡ view_in stands.now job.now stand.now }
{
    let in_zone = in_zone(stands, job, &stand.zone);
    view_of(stand, in_zone, held_of(job, stand) as u64)
}

// The place of the best cell.
fn scan_best(stands: &[Stand], job: &Job) -> Option<usize>
    requires { AreStands stands.now }
    ensures { MatchOption result (best stands.now job.now ≡ None) (IsBestAt stands.now job.now) }
{
    let mut best = None;
    let mut left = stands.len();
    while left > 0 {
        left -= 1;
        let view = view_in(stands, &job.job, &stands[left]);
        if fits(job, &view) {
            let score = score(&view);
            best = Some(better_of(best, Candidate { at: left, score }));
        }
    }
    best.map(|found: Candidate| found.at)
}

// Places the job by a scan.
fn place_by_scan(stands: &mut Vec<Stand>, job: &Job) -> Result<Placement, OutOfMemory>
    requires { AreStands stands.old.items }
    ensures placement { IfOk result
        (λ made. made ≡ placement_on job.now (best stands.old.items job.now)) }
    ensures stands { OnOk result
        (stands.new.items ≡ stands_with job.now (best stands.old.items job.now) stands.old.items) }
    ensures sound { OnOk result (AreStands stands.new.items) }
{
    match scan_best(stands.as_slice(), job) {
        None => Ok(Placement::NoRoom { job: job.job }),
        Some(at) => place_at(stands, job, at),
    }
}

/// Places each job on the best cell that fits it, in the order of the auction, and tells where each
/// went. It looks at all cells for each job, and counts the containers of a process again each time.
pub fn scan_auction(
    alloc: Global,
    jobs: &[Job],
    cells: &[Answer],
) -> Result<List<Placement>, OutOfMemory>
    requires jobs { AreJobs jobs.now }
    requires cells { AreAnswers cells.now }
    ensures { IfOk result (λ list. list ≡ auction cells.now (in_order jobs.now)) }
{
    let sorted = in_order(alloc, jobs)?;
    let mut stands = stands_of(alloc, cells)?;
    let mut list = List::new(alloc);
    for job in &sorted {
        let made = place_by_scan(&mut stands, job)?;
        list.push(made)?;
    }
    Ok(list)
}
