//! How many containers of each process each zone has, and how many each cell.
ghost use Rattle.std.specs.Prelude.{◌≡◌, ℕ, ◌+◌, ◌<◌, ◌^◌, List, length, IfOk, OnOk};
ghost use Rattle.auctioneer.specs.Asked.{AreStands};
ghost use Rattle.auctioneer.specs.Tallies.{place_of, tallied, Gains, HasRoomFor, SaysTheSame, held_at, CountsAt};
ghost use Rattle.cell_records.specs.declared.job_name.JobName.{JobName as JobIs};

use crate::stand::Stand;
use cell_records::JobName;
use diego_names::{Name, OutOfMemory};
use std::alloc::Global;
use std::collections::HashMap;

// By what containers are counted.
#[derive(Clone, Copy)]
pub(crate) enum Place {
    Zone,
    Cell,
}

impl Place {
    // The name of the cell's zone, or its own.
    fn of(self, stand: &Stand) -> Name
        ensures { result ≡ place_of self stand.now }
    {
        match self {
            Place::Zone => stand.zone,
            Place::Cell => stand.cell,
        }
    }
}

// A process in a zone or on a cell.
#[derive(Clone, Copy, PartialEq, Eq, Hash)]
struct Share {
    process: Name,
    place: Name,
}

#[derive(Drop)]
pub(crate) struct Tally {
    counts: HashMap<Share, u64>,
}

impl Tally {
    // How many containers of the job's process the place has: none of a task.
    pub(crate) fn count(&self, job: &JobName, place: &Name) -> u64
        ensures { result ≡ tallied self.now job.now place.now }
    {
        match job {
            JobName::Lrp(key) => {
                let share = Share {
                    process: key.process,
                    place: *place,
                };
                self.counts.get(&share).copied().unwrap_or(0)
            }
            JobName::Task(_) => 0,
        }
    }

    // Takes the memory for one container more, and changes no count.
    pub(crate) fn make_room(&mut self, job: &JobName, place: &Name) -> Result<(), OutOfMemory>
        ensures kept { SaysTheSame self.old self.new }
        ensures room { OnOk result (HasRoomFor self.new job.now place.now) }
    {
        if let JobName::Lrp(key) = job {
            let share = Share {
                process: key.process,
                place: *place,
            };
            if !self.counts.contains_key(&share) {
                self.counts.insert(share, 0)?;
            }
        }
        Ok(())
    }

    // Counts one container more.
    pub(crate) fn add(&mut self, job: &JobName, place: &Name)
        requires few { tallied self.old job.now place.now + 1 < 2 ^ 64 }
        requires room { HasRoomFor self.old job.now place.now }
        ensures { Gains self.old self.new job.now place.now }
    {
        let count = self.count(job, place);
        if let JobName::Lrp(key) = job {
            let share = Share {
                process: key.process,
                place: *place,
            };
            // It is there, so that this takes no memory.
            let _had = self.counts.insert(share, count + 1);
        }
    }

    // Counts the containers of a cell.
    fn add_stand(&mut self, stand: &Stand, place: Place) -> Result<(), OutOfMemory>
        requires { (job : JobIs) (name : List ℕ)
            → tallied self.old job name + length stand.now.jobs < 2 ^ 64 }
        ensures { OnOk result ((job : JobIs) (name : List ℕ)
            → tallied self.new job name
            ≡ tallied self.old job name + held_at place job name stand.now) }
    {
        let name = place.of(stand);
        for job in stand.jobs.items() {
            self.make_room(job, &name)?;
            self.add(job, &name);
        }
        Ok(())
    }
}

// The tally of the cells by zones or by cells.
pub(crate) fn tally_of(alloc: Global, stands: &[Stand], place: Place) -> Result<Tally, OutOfMemory>
    requires { AreStands stands.now }
    ensures { IfOk result (λ tally. CountsAt place tally stands.now) }
{
    let mut tally = Tally {
        counts: HashMap::new(alloc),
    };
    for stand in stands {
        tally.add_stand(stand, place)?;
    }
    Ok(tally)
}
