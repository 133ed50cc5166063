//! What a drain comes to.
ghost use Rattle.std.specs.Prelude.{◌≡◌, [], IfOk};
ghost use Rattle.cell_drains.specs.Drained.{count_uneven, drain, drained_by};
ghost use Rattle.site_answers.specs.Zones.{zones_then};
ghost use Rattle.what_if.specs.Plans.{stands_before};
ghost use Rattle.what_if.specs.Sites.{IsSite};

use crate::batches::batches;
use crate::counts::{bad_steps, empty_cells, worst_of};
use crate::drains::{Course, take_all};
use crate::levels::levelled;
use crate::moves::most_moves;
use crate::seats::in_drain;
use auctioneer::Auction;
use diego_names::{List, Name, OutOfMemory};
use forecast_records::{Drained, ZoneThen};
use site_answers::zones_then;
use site_spread::uneven_now;
use std::alloc::Global;
use what_if::{Site, open_cells};

// How many processes are uneven as they stand, and none lost.
fn count_uneven(alloc: Global, site: &Site) -> Result<u64, OutOfMemory>
    ensures { IfOk result (λ count. count ≡ count_uneven site.now) }
{
    let uneven = uneven_now(alloc, site)?;
    Ok(uneven.len() as u64)
}

// What the zones of the first site have, and what is left of it in the last one.
fn zones_left(alloc: Global, site: &Site, last: &Site) -> Result<List<ZoneThen>, OutOfMemory>
    requires site { IsSite site.now }
    requires last { IsSite last.now }
    ensures { IfOk result (λ zones. zones ≡ zones_then site.now (stands_before last.now [])) }
{
    let cells = open_cells(alloc, last, &[])?;
    let auction = Auction::new(alloc, &cells)?;
    let zones = zones_then(alloc, site, auction.stands())?;
    Ok(zones)
}

// What a drain comes to.
fn drained_by(
    alloc: Global,
    site: &Site,
    cells: u64,
    at_a_time: u32,
    course: Course,
) -> Result<Drained, OutOfMemory>
    requires site { IsSite site.now }
    requires last { IsSite course.site }
    ensures { IfOk result (λ drained. drained
        ≡ drained_by site.now cells at_a_time course.site course.steps course.moved.items) }
{
    let Course {
        site: last,
        steps,
        moved,
    } = course;
    let most = most_moves(alloc, &moved)?;
    let uneven_before = count_uneven(alloc, site)?;
    let uneven = count_uneven(alloc, &last)?;
    let zones = zones_left(alloc, site, &last)?;
    Ok(Drained {
        cells,
        at_a_time,
        bad_steps: bad_steps(steps.items()),
        moves: moved.len() as u64,
        most_moves: most,
        empty: empty_cells(&last),
        uneven_before,
        uneven,
        zones,
        verdict: worst_of(steps.items()),
        steps,
    })
}

/// What happens where cells are emptied in batches of at most so many, one batch after another: the given
/// cells in their order, or all by tag, zone and name. A batch has one zone and one tag, and at least one
/// cell. What a step leaves is what the next one begins with. Silent cells are passed over.
///
/// Each step costs a plan, and a copy of all cells with what was placed. So `n` cells one at a time are
/// `n` plans.
pub fn drain(
    alloc: Global,
    site: &Site,
    cells: &Option<List<Name>>,
    at_a_time: u32,
) -> Result<Drained, OutOfMemory>
    requires { IsSite site.now }
    ensures { IfOk result (λ done. done ≡ drain site.now at_a_time cells.now) }
{
    let order = in_drain(alloc, site, cells)?;
    let cut = batches(alloc, at_a_time, order.as_slice())?;
    let first = levelled(alloc, site)?;
    let start = levelled(alloc, site)?;
    let course = take_all(alloc, start, cut.as_slice())?;
    let drained = drained_by(alloc, &first, order.len() as u64, at_a_time, course)?;
    Ok(drained)
}
