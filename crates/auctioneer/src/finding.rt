//! The best cell for a job: groups are gone through from the cell that scores least at least.
ghost use Rattle.std.specs.Prelude.{◌≡◌, ◌+◌, ◌<◌, true, false, length, slice_index_or, option_map, unwrap_or};
ghost use Rattle.std.specs.Prelude.{IsTrue, IfSome, IfNone, IsSomeAnd, MatchOption, None};
ghost use Rattle.auction_scoring.specs.Order.{is_better};
ghost use Rattle.auctioneer.specs.Fields.{IsFieldOf, IsFitting, IsBestOf};
ghost use Rattle.auctioneer.specs.Least.{best, IsBestAt};
ghost use Rattle.auctioneer.specs.Needs.{asks_for};
ghost use Rattle.auctioneer.specs.Spots.{IsRanking};
ghost use Rattle.auctioneer.specs.Stands.{can_take, in_zone};
ghost use Rattle.auctioneer.specs.Tallies.{tallied};
ghost use Rattle.auctioneer.specs.declared.groups.Group.{Group as AGroup};
ghost use Rattle.auctioneer.specs.declared.stand.Stand.{Stand as AStand};

use crate::candidate::{Candidate, better_of, view_of};
use crate::field::Field;
use crate::looks::Looks;
use crate::refused::is_refused;
use crate::spots::{Spot, Spots, first_of};
use auction_scoring::{Score, better, fits, score};
use cell_records::{Job, JobName};
use diego_names::Name;

// Whether no cell that scores as much as this, or more, is better than the best so far.
fn is_settled(found: &Option<Candidate>, least: &Score) -> bool
    ensures { IsTrue result → IsSomeAnd found.now (λ c. is_better least.now c.score ≡ false) }
{
    match found {
        Some(candidate) => !better(least, &candidate.score),
        None => false,
    }
}

impl Field {
    // How many containers of the job's process the group's zone has, if it is of one zone.
    fn floor_of(&self, job: &Job, group: usize) -> Option<u64>
        requires { group < length self.now.groups.items }
        ensures { (g : AGroup) → result ≡ option_map (tallied self.now.in_zones job.now.job)
            (slice_index_or self.now.groups.items group g).zone }
    {
        match self.groups[group].zone {
            Some(zone) => Some(self.in_zones.count(&job.job, &zone)),
            None => None,
        }
    }

    // What the cell of a spot scores at least, where its zone has so many if that is known.
    fn least_of(&self, spot: &Spot, floor: Option<u64>) -> Score
        requires { spot.now.cell < length self.now.stands.items }
        ensures { (s : AStand) → result ≡ record {
          in_zone = unwrap_or floor spot.now.in_zone;
          on_cell = spot.now.on_cell;
          load = spot.now.load;
          cell = (slice_index_or self.now.stands.items spot.now.cell s).cell;
        } }
    {
        Score {
            in_zone: floor.unwrap_or(spot.in_zone),
            on_cell: spot.on_cell,
            load: spot.load,
            cell: self.stands[spot.cell].cell,
        }
    }

    // How many containers of the job's process the zone has, which may be known.
    fn zone_count(&self, job: &JobName, zone: &Name, floor: Option<u64>) -> u64
        ensures { result ≡ unwrap_or floor (tallied self.now.in_zones job.now zone.now) }
    {
        match floor {
            Some(count) => count,
            None => self.in_zones.count(job, zone),
        }
    }

    // The cell at that place, if it fits the job. It counts the look.
    fn candidate_at(
        &self,
        job: &Job,
        at: usize,
        floor: Option<u64>,
        looks: &mut Looks,
    ) -> Option<Candidate>
        requires field { IsFieldOf self.now }
        requires inside { at < length self.now.stands.items }
        requires zone { (s : AStand) → IfSome floor (λ count. count
            ≡ in_zone self.now.stands.items job.now.job (slice_index_or self.now.stands.items at s).zone) }
        ensures none { IfNone result ((s : AStand)
            → can_take job.now (slice_index_or self.now.stands.items at s) ≡ false) }
        ensures fitting { IfSome result (IsFitting self.now.stands.items job.now) }
        ensures place { IfSome result (λ c. c.at ≡ at) }
    {
        let stand = &self.stands[at];
        let mut view = view_of(stand, 0, 0);
        if !fits(job, &view) {
            looks.count_in_vain();
            return None;
        }
        looks.count_fitting();
        view.in_zone = self.zone_count(&job.job, &stand.zone, floor);
        view.on_cell = self.on_cells.count(&job.job, &stand.cell);
        Some(Candidate {
            at,
            score: score(&view),
        })
    }

    // The best so far or, if it is better, the best of a group. Its cells are taken by what they score at
    // least, up to one from which on none can be better. It counts the cells that it looks at.
    fn best_in(
        &self,
        spots: &Spots,
        job: &Job,
        group: usize,
        found: Option<Candidate>,
        looks: &mut Looks,
    ) -> Option<Candidate>
        requires field { IsFieldOf self.now }
        requires spots { IsRanking job.now.job self.now.groups.items self.now.stands.items spots.now }
        requires served { asks_for job.now spots.now.need ≡ true }
        requires inside { group < length self.now.groups.items }
        requires found { IsBestOf self.now.stands.items spots.now.all.items job.now
            (λ p. p.group < group) found }
        ensures { IsBestOf self.now.stands.items spots.now.all.items job.now
            (λ p. p.group < group + 1) result }
    {
        let floor = self.floor_of(job, group);
        let mut best = found;
        for spot in spots.order.range(first_of(group)..first_of(group + 1)) {
            if is_settled(&best, &self.least_of(spot, floor)) {
                return best;
            }
            if let Some(other) = self.candidate_at(job, spot.cell, floor, looks) {
                best = Some(better_of(best, other));
            }
        }
        best
    }

    // The place of the best cell, by a look at the groups.
    fn best_of_groups(&self, spots: &Spots, job: &Job, looks: &mut Looks) -> Option<usize>
        requires field { IsFieldOf self.now }
        requires spots { IsRanking job.now.job self.now.groups.items self.now.stands.items spots.now }
        requires served { asks_for job.now spots.now.need ≡ true }
        ensures { MatchOption result (best self.now.stands.items job.now ≡ None)
            (IsBestAt self.now.stands.items job.now) }
    {
        let mut best = None;
        for group in 0..self.groups.len() {
            if job.tag == self.groups[group].tag {
                best = self.best_in(spots, job, group, best, looks);
            }
        }
        best.map(|found: Candidate| found.at)
    }

    // The order that serves best for jobs of any process that ask for as much as the job.
    fn shared_for(&self, job: &Job) -> &Spots
        requires { IsFieldOf self.now }
        ensures ranking { IsRanking job.now.job self.now.groups.items self.now.stands.items result.now }
        ensures served { asks_for job.now result.now.need ≡ true }
    {
        match &self.lean {
            Some(lean) => {
                if lean.need.is_asked_by(job) {
                    lean
                } else {
                    &self.common
                }
            }
            None => &self.common,
        }
    }

    // The order that serves best for the job.
    fn spots_for(&self, job: &Job) -> &Spots
        requires { IsFieldOf self.now }
        ensures ranking { IsRanking job.now.job self.now.groups.items self.now.stands.items result.now }
        ensures served { asks_for job.now result.now.need ≡ true }
    {
        match job.job {
            JobName::Lrp(key) => match &self.own {
                Some(own) => {
                    if own.process != key.process {
                        return self.shared_for(job);
                    }
                    if own.spots.need.is_asked_by(job) {
                        &own.spots
                    } else {
                        self.shared_for(job)
                    }
                }
                None => self.shared_for(job),
            },
            JobName::Task(_) => self.shared_for(job),
        }
    }

    // The place of the best cell. It counts the cells that it looks at.
    pub(crate) fn best_of(&self, job: &Job, looks: &mut Looks) -> Option<usize>
        requires { IsFieldOf self.now }
        ensures { MatchOption result (best self.now.stands.items job.now ≡ None)
            (IsBestAt self.now.stands.items job.now) }
    {
        if is_refused(self.refused.as_slice(), job) {
            return None;
        }
        self.best_of_groups(self.spots_for(job), job, looks)
    }
}
