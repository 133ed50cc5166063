//! What is asked for in all, and what is free in all.
ghost use Rattle.std.specs.Prelude.{◌≡◌, ℕ, ◌+◌, ◌-◌, ◌≤◌, ◌^◌, length, filter};
ghost use Rattle.room_facts.specs.Lacks.{has_tag};
ghost use Rattle.room_facts.specs.Rooms.{amounts_of, free_in_all, is_for, of_tag, plus, sums, AreUpTo};

use crate::lacking::has_tag;
use auctioneer::Stand;
use cell_records::{Amounts, Job};
use diego_names::Name;

/// Amounts of many jobs or cells, added up.
#[derive(Clone, Copy, Debug, PartialEq, Eq)]
pub struct Sums {
    /// In MB.
    pub memory: u64,
    /// In MB.
    pub disk: u64,
    /// How many containers.
    pub containers: u64,
}

const NOTHING: Sums = Sums {
    memory: 0,
    disk: 0,
    containers: 0,
};

// Whether the job is for this tag.
pub(crate) fn is_for(tag: &Option<Name>, job: &Job) -> bool
    ensures { result ≡ is_for tag.now job.now }
{
    *tag == job.tag
}

// With these amounts more.
fn plus(sums: Sums, more: Amounts) -> Sums
    requires { AreUpTo (2 ^ 64 - 2 ^ 32) sums }
    ensures value { amounts_of result ≡ plus (amounts_of sums) more }
    ensures most { (n : ℕ) → AreUpTo n sums → AreUpTo (n + (2 ^ 32 - 1)) result }
{
    Sums {
        memory: sums.memory + u64::from(more.memory),
        disk: sums.disk + u64::from(more.disk),
        containers: sums.containers + u64::from(more.containers),
    }
}

/// What the jobs with this tag ask for in all.
pub fn asked_in_all(tag: &Option<Name>, jobs: &[Job]) -> Sums
    requires { length jobs.now ≤ 2 ^ 32 }
    ensures { amounts_of result ≡ sums (of_tag tag.now jobs.now) }
{
    let mut asked = NOTHING;
    for job in jobs {
        if is_for(tag, job) {
            let more = Amounts {
                memory: job.memory,
                disk: job.disk,
                containers: 1,
            };
            asked = plus(asked, more);
        }
    }
    asked
}

/// What the cells with this tag have free in all.
pub fn free_in_all(tag: &Option<Name>, stands: &[Stand]) -> Sums
    requires { length stands.now ≤ 2 ^ 32 }
    ensures { amounts_of result ≡ free_in_all (filter (has_tag tag.now) stands.now) }
{
    let mut free = NOTHING;
    for stand in stands {
        if has_tag(tag, stand) {
            free = plus(free, stand.free);
        }
    }
    free
}
