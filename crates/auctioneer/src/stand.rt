ghost use Rattle.std.specs.Prelude.{◌≡◌, true, OnOk, OnErr};

use cell_records::{Amounts, Job, JobName};
use diego_names::{List, Name, OutOfMemory};

/// A cell as it stands in an auction.
#[derive(Debug, Drop)]
pub struct Stand {
    pub cell: Name,
    pub zone: Name,
    pub tag: Option<Name>,
    pub totals: Amounts,
    /// What its containers and the jobs placed so far leave of the totals.
    pub free: Amounts,
    /// The jobs of its containers that have not ended, and then those placed so far.
    pub jobs: List<JobName>,
}

impl Stand {
    ghost use Rattle.auctioneer.specs.Stands.{can_take, with_job};

    /// Puts the job on the cell. After an error the cell is as before.
    pub fn take(&mut self, job: &Job) -> Result<(), OutOfMemory>
        requires { can_take job.now self.old ≡ true }
        ensures ok { OnOk result (self.new ≡ with_job job.now self.old) }
        ensures err { OnErr result (self.new ≡ self.old) }
    {
        self.jobs.push(job.job)?;
        self.free.memory -= job.memory;
        self.free.disk -= job.disk;
        self.free.containers -= 1;
        Ok(())
    }
}
