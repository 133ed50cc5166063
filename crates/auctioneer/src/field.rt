//! The cells of an auction, kept so that the best one for a job is found without looking at all.
ghost use Rattle.std.specs.Prelude.{◌≡◌, ◌<◌, length, IfOk, OnOk, OnErr, None};
ghost use Rattle.auctioneer.specs.Asked.{AreAnswers};
ghost use Rattle.auctioneer.specs.Auction.{placement_on, stands_with};
ghost use Rattle.auctioneer.specs.Fields.{IsFieldOf, CanCount};
ghost use Rattle.auctioneer.specs.Least.{best, IsBestAt};
ghost use Rattle.auctioneer.specs.Stands.{stands_of};

use crate::groups::Group;
use crate::looks::Looks;
use crate::needs::Need;
use crate::placement::Placement;
use crate::placing::place_at;
use crate::refused::{Size, remember};
use crate::spots::{Spots, order_of, spots_of};
use crate::stand::Stand;
use crate::standing::stands_of;
use crate::tally::{Place, Tally, tally_of};
use cell_records::{Answer, Job};
use diego_names::{Name, OutOfMemory};
use std::alloc::Global;

// The cells in an order of their own for the instances of one process.
#[derive(Drop)]
pub(crate) struct Own {
    pub(crate) process: Name,
    pub(crate) spots: Spots,
}

#[derive(Drop)]
pub(crate) struct Field {
    pub(crate) alloc: Global,
    pub(crate) stands: Vec<Stand>,
    pub(crate) groups: Vec<Group>,
    // By load alone, for each job.
    pub(crate) common: Spots,
    // The same without cells that jobs looked at in vain, for jobs that ask for as much.
    pub(crate) lean: Option<Spots>,
    // For the process whose jobs had to look at many cells.
    pub(crate) own: Option<Own>,
    // How many cells jobs looked at in vain.
    pub(crate) in_vain: usize,
    // The process of the last job, and how many other cells its jobs looked at.
    pub(crate) watched: Option<Name>,
    pub(crate) looked: usize,
    // What the zones hold of each process, and the cells.
    pub(crate) in_zones: Tally,
    pub(crate) on_cells: Tally,
    // Some sizes of jobs that no cell had room for.
    pub(crate) refused: Vec<Size>,
}

impl Field {
    pub(crate) fn new(alloc: Global, cells: &[Answer]) -> Result<Field, OutOfMemory>
        requires { AreAnswers cells.now }
        ensures sound { IfOk result IsFieldOf }
        ensures stands { IfOk result (λ field. field.stands.items ≡ stands_of cells.now) }
    {
        let stands = stands_of(alloc, cells)?;
        let (groups, all) = spots_of(alloc, stands.as_slice())?;
        let order = order_of(alloc, all.as_slice())?;
        let in_zones = tally_of(alloc, stands.as_slice(), Place::Zone)?;
        let on_cells = tally_of(alloc, stands.as_slice(), Place::Cell)?;
        Ok(Field {
            alloc,
            stands,
            groups,
            common: Spots {
                all,
                order,
                need: Need::NOTHING,
            },
            lean: None,
            own: None,
            in_vain: 0,
            watched: None,
            looked: 0,
            in_zones,
            on_cells,
            refused: Vec::new(alloc),
        })
    }

    // The cells as they stand now, in the order of their names.
    pub(crate) fn stands(&self) -> &[Stand]
        ensures { result.now ≡ self.now.stands.items }
    {
        self.stands.as_slice()
    }

    // Takes the memory for counting the job on the cell at that place, and changes nothing else.
    fn make_room(&mut self, job: &Job, at: usize) -> Result<(), OutOfMemory>
        requires field { IsFieldOf self.old }
        requires inside { at < length self.old.stands.items }
        ensures stands { self.new.stands.items ≡ self.old.stands.items }
        ensures field { IsFieldOf self.new }
        ensures room { OnOk result (CanCount self.new job.now at) }
    {
        let stand = &self.stands[at];
        self.in_zones.make_room(&job.job, &stand.zone)?;
        self.on_cells.make_room(&job.job, &stand.cell)
    }

    // Puts the job on the cell at that place, which is the best for it, and counts it. After an error the
    // cells are as before.
    fn count_in(&mut self, job: &Job, at: usize) -> Result<Placement, OutOfMemory>
        requires field { IsFieldOf self.old }
        requires best { IsBestAt self.old.stands.items job.now at }
        ensures placement { IfOk result
            (λ made. made ≡ placement_on job.now (best self.old.stands.items job.now)) }
        ensures stands { OnOk result (self.new.stands.items
            ≡ stands_with job.now (best self.old.stands.items job.now) self.old.stands.items) }
        ensures most { length self.new.stands.items ≡ length self.old.stands.items }
        ensures err { OnErr result (self.new.stands.items ≡ self.old.stands.items) }
        ensures field { IsFieldOf self.new }
    {
        self.make_room(job, at)?;
        let made = place_at(&mut self.stands, job, at)?;
        let stand = &self.stands[at];
        self.in_zones.add(&job.job, &stand.zone);
        self.on_cells.add(&job.job, &stand.cell);
        Ok(made)
    }

    // Puts the job on the cell at that place, which is the best for it. After an error the cells are
    // as before.
    fn put(&mut self, job: &Job, at: usize) -> Result<Placement, OutOfMemory>
        requires field { IsFieldOf self.old }
        requires best { IsBestAt self.old.stands.items job.now at }
        ensures placement { IfOk result
            (λ made. made ≡ placement_on job.now (best self.old.stands.items job.now)) }
        ensures stands { OnOk result (self.new.stands.items
            ≡ stands_with job.now (best self.old.stands.items job.now) self.old.stands.items) }
        ensures err { OnErr result (self.new.stands.items ≡ self.old.stands.items) }
        ensures field { IsFieldOf self.new }
    {
        let made = self.count_in(job, at)?;
        self.renew_common(at);
        self.renew_lean(at);
        self.renew_own(&job.job, at);
        Ok(made)
    }

    // Remembers that no cell fits the job.
    fn refuse(&mut self, job: &Job) -> Placement
        requires field { IsFieldOf self.old }
        requires none { best self.old.stands.items job.now ≡ None }
        ensures placement { result ≡ placement_on job.now None }
        ensures stands { self.new.stands.items ≡ self.old.stands.items }
        ensures field { IsFieldOf self.new }
    {
        remember(&mut self.refused, job);
        Placement::NoRoom { job: job.job }
    }

    // Places the job on the best cell that fits it. After an error the cells are as before.
    pub(crate) fn place(&mut self, job: &Job) -> Result<Placement, OutOfMemory>
        requires { IsFieldOf self.old }
        ensures placement { IfOk result
            (λ made. made ≡ placement_on job.now (best self.old.stands.items job.now)) }
        ensures stands { OnOk result (self.new.stands.items
            ≡ stands_with job.now (best self.old.stands.items job.now) self.old.stands.items) }
        ensures err { OnErr result (self.new.stands.items ≡ self.old.stands.items) }
        ensures sound { IsFieldOf self.new }
    {
        let mut looks = Looks::NONE;
        match self.best_of(job, &mut looks) {
            None => Ok(self.refuse(job)),
            Some(at) => {
                self.watch(job, looks);
                self.put(job, at)
            }
        }
    }
}
