//! Where more instances of a process would go.
ghost use Rattle.std.specs.Prelude.{◌≡◌, ◌<◌, ◌≤◌, ◌^◌, length, IfOk};
ghost use Rattle.what_if.specs.Sites.{IsSite};
ghost use Rattle.loss_cases.specs.Fits.{fit, fitted_on};

use crate::fillings::{filled_cells, zones_filled};
use crate::more::{More, job_more, jobs_more, next_index};
use crate::placements::count_placed;
use crate::trials::{Field, try_all};
use auctioneer::{Auction, Stand};
use cell_records::Job;
use diego_names::{List, Name, OutOfMemory};
use dump_lines::Demand;
use forecast_records::Fitted;
use room_facts::room_for;
use std::alloc::Global;
use what_if::{Site, open_cells, verdict_of};

// Where these jobs of one size go, one after another, on cells that stand so.
fn fitted_on(
    alloc: Global,
    before: &[Stand],
    auction: &mut Auction,
    size: &Job,
    jobs: &[Job],
) -> Result<Fitted, OutOfMemory>
    requires start { auction.old ≡ before.now }
    requires few { length before.now ≤ 1000 }
    requires jobs { length jobs.now < 2 ^ 32 }
    ensures { IfOk result (λ fitted. fitted ≡ fitted_on before.now size.now jobs.now) }
{
    let field = Field { before, jobs };
    let trial = try_all(alloc, auction, &field)?;
    let filled = filled_cells(alloc, before, auction.stands())?;
    let zones = zones_filled(alloc, filled.as_slice())?;
    Ok(Fitted {
        instances: jobs.len() as u32,
        placed: count_placed(trial.placements.items()),
        unplaced: trial.left.len() as u64,
        room_for: room_for(size, before),
        zones: List::from(zones),
        first: trial.first,
        filled: List::from(filled),
        verdict: verdict_of(before, jobs, trial.left.items()),
    })
}

/// Where so many instances more of the process go, on what is free now, beside each of which the proxy
/// takes so much memory. Their numbers begin behind the greatest that is wanted of the process, and end
/// at the last one of 32 bits. What waits isn't placed before them.
///
/// It costs the making of two auctions, which count each container of an open cell, and a placement
/// of each instance.
pub fn fit(
    alloc: Global,
    site: &Site,
    proxy: u32,
    process: Name,
    instances: u32,
    demand: Demand,
) -> Result<Fitted, OutOfMemory>
    requires { IsSite site.now }
    ensures { IfOk result (λ fitted. fitted ≡ fit site.now proxy process instances demand) }
{
    let more = More {
        process,
        proxy,
        demand,
    };
    let first = next_index(&process, site.wanted.items());
    let jobs = jobs_more(alloc, &more, first, instances)?;
    let size = job_more(&more, 0);
    let cells = open_cells(alloc, site, &[])?;
    let before = Auction::new(alloc, &cells)?;
    let mut auction = Auction::new(alloc, &cells)?;
    let fitted = fitted_on(alloc, before.stands(), &mut auction, &size, &jobs)?;
    Ok(fitted)
}
