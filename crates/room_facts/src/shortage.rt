//! When it is shown that not all jobs of a tag find room, whatever the scheduler.
ghost use Rattle.std.specs.Prelude.{◌≡◌, ◌≤◌, ◌^◌, length};
ghost use Rattle.room_facts.specs.Rooms.{amounts_of, as_large, exceeds, is_as_large, is_short};

use crate::rooms::room_for;
use crate::sums::{Sums, asked_in_all, free_in_all, is_for};
use auctioneer::Stand;
use cell_records::Job;

// Whether the job asks for at least the memory and the disk of the other.
fn is_as_large(size: &Job, job: &Job) -> bool
    ensures { result ≡ is_as_large size.now job.now }
{
    size.memory <= job.memory && size.disk <= job.disk
}

/// How many of the jobs have the tag of this one and ask for at least its memory and its disk. It is
/// one of them itself, if it is among the jobs.
pub fn as_large(size: &Job, jobs: &[Job]) -> u64
    ensures { result ≡ as_large size.now jobs.now }
{
    jobs.iter()
        .filter(|job| is_for(&size.tag, job))
        .filter(|job| is_as_large(size, job))
        .count() as u64
}

// Whether one of the first amounts is more than that of the second.
fn exceeds(asked: Sums, free: Sums) -> bool
    ensures { result ≡ exceeds (amounts_of asked) (amounts_of free) }
{
    free.memory < asked.memory || free.disk < asked.disk || free.containers < asked.containers
}

/// Whether it is shown that not all jobs with the tag of this one find room: more are as large as it
/// than the cells take, or together they ask for more than is free. If it is `false`, there may
/// still be too little.
pub fn is_short(stands: &[Stand], jobs: &[Job], job: &Job) -> bool
    requires stands { length stands.now ≤ 2 ^ 32 }
    requires jobs { length jobs.now ≤ 2 ^ 32 }
    ensures { result ≡ is_short stands.now jobs.now job.now }
{
    room_for(job, stands) < as_large(job, jobs)
        || exceeds(asked_in_all(&job.tag, jobs), free_in_all(&job.tag, stands))
}
