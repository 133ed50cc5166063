//! What a scan counts from scratch.
ghost use Rattle.std.specs.Prelude.{◌≡◌, ◌≤◌, length};
ghost use Rattle.auctioneer.specs.Asked.{AreStands};
ghost use Rattle.auctioneer.specs.Stands.{is_of, held_of, in_zone};

use crate::stand::Stand;
use cell_records::JobName;
use diego_names::Name;

// Whether both are instances of one process.
pub(crate) fn is_of(job: &JobName, other: &JobName) -> bool
    ensures { result ≡ is_of job.now other.now }
{
    match (job, other) {
        (JobName::Lrp(key), JobName::Lrp(another)) => key.process == another.process,
        _ => false,
    }
}

// How many containers of the job's process the cell has.
pub(crate) fn held_of(job: &JobName, stand: &Stand) -> usize
    ensures value { result ≡ held_of job.now stand.now }
    ensures most { result ≤ length stand.now.jobs }
{
    stand
        .jobs
        .items()
        .iter()
        .filter(|other| is_of(job, other))
        .count()
}

// How many containers of the job's process all cells of the zone have.
pub(crate) fn in_zone(stands: &[Stand], job: &JobName, zone: &Name) -> u64
    requires { AreStands stands.now }
    ensures { result ≡ in_zone stands.now job.now zone.now }
{
    let mut total = 0;
    for stand in stands {
        if stand.zone == *zone {
            total += held_of(job, stand) as u64;
        }
    }
    total
}
