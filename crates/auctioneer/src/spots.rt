//! Orders of the cells: by group, and in each group by what a cell scores at least.
ghost use Rattle.std.specs.Prelude.{◌≡◌, ℕ, ◌<◌, List, length, slice_index_or, IfOk};
ghost use Rattle.std.specs.BTreeSet.{IsFromIterResult};
ghost use Rattle.auctioneer.specs.Asked.{IsSoundStand, AreStands};
ghost use Rattle.auctioneer.specs.Spots.{spot_order, load_in, AreFirstSpots, AreSpotsFor, IsRanking, IsSpotOf};
ghost use Rattle.auctioneer.specs.declared.groups.Group.{Group as AGroup};
ghost use Rattle.auctioneer.specs.declared.stand.Stand.{Stand as AStand};
ghost use Rattle.cell_records.specs.declared.job_name.JobName.{JobName as AJob};

use crate::candidate::view_of;
use crate::groups::{Group, are_apart, group_of};
use crate::needs::Need;
use crate::stand::Stand;
use auction_scoring::score;
use cell_records::Job;
use diego_names::OutOfMemory;
use std::alloc::Global;
use std::collections::BTreeSet;

// Where a cell stands in an order: by the number of its group, then by what it scores at least, and then by
// its place in the order of names. Jobs are only added, so that a cell may score more than its spot says, and
// never scores less.
#[derive(Clone, Copy, PartialEq, Eq, PartialOrd, Ord)]
pub(crate) struct Spot {
    pub(crate) group: usize,
    // Nothing in a group of one zone, whose cells are equal in that.
    pub(crate) in_zone: u64,
    pub(crate) on_cell: u64,
    pub(crate) load: u32,
    pub(crate) cell: usize,
}

// The spot of each cell, and these spots in their order.
#[derive(Drop)]
pub(crate) struct Spots {
    pub(crate) all: Vec<Spot>,
    // Cells that lack what is needed may be left out.
    pub(crate) order: BTreeSet<Spot>,
    // It serves for jobs that ask for so much.
    pub(crate) need: Need,
}

// No spot of the group is before it.
pub(crate) fn first_of(group: usize) -> Spot
    ensures { result ≡ record { group = group; in_zone = 0; on_cell = 0; load = 0; cell = 0 } }
{
    Spot {
        group,
        in_zone: 0,
        on_cell: 0,
        load: 0,
        cell: 0,
    }
}

// How full the cell is.
pub(crate) fn load_of(stand: &Stand) -> u32
    requires { IsSoundStand stand.now }
    ensures { result ≡ load_in stand.now }
{
    score(&view_of(stand, 0, 0)).load
}

// The groups, and the spot of each cell by its load alone, which serves for each job.
pub(crate) fn spots_of(
    alloc: Global,
    stands: &[Stand],
) -> Result<(Vec<Group>, Vec<Spot>), OutOfMemory>
    requires { AreStands stands.now }
    ensures { IfOk result (λ both. AreFirstSpots both.0.items stands.now both.1.items) }
{
    let is_apart = are_apart(alloc, stands)?;
    let mut groups = Vec::new(alloc);
    let mut spots = Vec::new(alloc);
    for cell in 0..stands.len() {
        let stand = &stands[cell];
        let group = group_of(&mut groups, stand, is_apart)?;
        let load = load_of(stand);
        spots.push(Spot {
            group,
            in_zone: 0,
            on_cell: 0,
            load,
            cell,
        })?;
    }
    Ok((groups, spots))
}

// The spots in their order.
pub(crate) fn order_of(alloc: Global, spots: &[Spot]) -> Result<BTreeSet<Spot>, OutOfMemory>
    ensures { IfOk result (IsFromIterResult spot_order spots.now) }
{
    Ok(spots.iter().copied().collect(alloc)?)
}

// The spots with their order, in which cells that lack room for the job are left out.
pub(crate) fn spots_with_room(
    alloc: Global,
    all: Vec<Spot>,
    stands: &[Stand],
    job: &Job,
) -> Result<Spots, OutOfMemory>
    requires { length all.items ≡ length stands.now }
    ensures { IfOk result (λ made. (other : AJob) (groups : List AGroup)
        → AreSpotsFor other groups stands.now all.items → IsRanking other groups stands.now made) }
{
    let mut need = Need::NOTHING;
    let mut kept = Vec::new(alloc);
    for at in 0..all.len() {
        match need.raised(job, &stands[at]) {
            Some(more) => need = more,
            None => kept.push(all[at])?,
        }
    }
    let order = order_of(alloc, kept.as_slice())?;
    Ok(Spots { all, order, need })
}

impl Spots {
    // Moves a cell to that spot, unless it is left out. Without memory it stays where it is.
    pub(crate) fn move_cell(&mut self, at: usize, after: Spot)
        requires inside { at < length self.old.all.items }
        ensures ranking { (job : AJob) (groups : List AGroup) (stands : List AStand)
            → IsSpotOf job groups stands at after → IsRanking job groups stands self.old
            → IsRanking job groups stands self.new }
        ensures need { self.new.need ≡ self.old.need }
    {
        if self.order.contains(&after) {
            return;
        }
        let before = self.all[at];
        if !self.order.contains(&before) {
            return;
        }
        match self.order.insert(after) {
            Ok(_new) => {
                self.order.remove(&before);
                self.all[at] = after;
            }
            Err(_) => {}
        }
    }
}
