//! What one cell lacks for one job.
ghost use Rattle.std.specs.Prelude.{◌≡◌};
ghost use Rattle.room_facts.specs.Lacks.{has_tag, lacks};

use auctioneer::Stand;
use cell_records::Job;
use diego_names::Name;

/// Of which amounts a cell has less free than a job asks for.
#[derive(Clone, Copy, Debug, PartialEq, Eq)]
pub struct Lacking {
    pub memory: bool,
    pub disk: bool,
    /// No container is free.
    pub containers: bool,
}

/// Whether the cell is for this tag, or where there is none for work without one.
pub fn has_tag(tag: &Option<Name>, stand: &Stand) -> bool
    ensures { result ≡ has_tag tag.now stand.now }
{
    *tag == stand.tag
}

/// Of which amounts the cell has too little for the job, as it stands. Its tag doesn't count here.
pub fn lacks(job: &Job, stand: &Stand) -> Lacking
    ensures { result ≡ lacks job.now stand.now }
{
    Lacking {
        memory: stand.free.memory < job.memory,
        disk: stand.free.disk < job.disk,
        containers: stand.free.containers == 0,
    }
}
